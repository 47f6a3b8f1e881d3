mod answers;
mod audit;
mod best;
mod book;
mod units;
