mod cases;
mod nearly_ordered;
mod refutations;
mod workers;
