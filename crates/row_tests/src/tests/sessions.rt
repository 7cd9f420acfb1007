mod caller;
mod replay;
