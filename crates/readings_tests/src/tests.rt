mod gets;
mod judged;
mod texts;
