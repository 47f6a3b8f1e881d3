mod best;
mod drills;
mod few;
mod first_ten;
mod long;
mod sources;
