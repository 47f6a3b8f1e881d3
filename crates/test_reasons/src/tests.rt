mod changes;
mod why;
