mod answers;
mod sentences;
mod why_json;
