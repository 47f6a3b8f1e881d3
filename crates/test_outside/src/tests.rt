mod outside;
mod requests;
mod rounds;
mod stores;
