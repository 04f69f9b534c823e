mod lines;
mod valid_places;
