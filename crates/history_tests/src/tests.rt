mod bulk_writer;
mod front;
mod pushes;
mod reader;
mod rules;
mod seen;
mod writer;
