mod at_once;
mod eight_threads;
mod faults;
mod plan;
mod recorded;
mod testing;
