mod answers;
mod calls;
mod parts;
mod search;
mod spans;
mod tables;
mod texts;
