mod caller;
mod rings;
