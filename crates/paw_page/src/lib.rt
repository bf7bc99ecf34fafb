//! A page's call of the program: one request and one reply, each as bytes.
#![tactic(auto)]

mod asking;
mod export;
mod reading;
mod reply;
mod request;
mod stage;
