mod disturbed_group;
mod group;
mod group_core;
mod script;
mod testing;
