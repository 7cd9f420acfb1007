mod channels;
mod forks;
mod frames;
mod links;
