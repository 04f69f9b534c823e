mod clock_recorder;
mod lock_recorder;
mod testing;
