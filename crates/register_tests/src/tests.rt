mod calls;
mod doc_map;
mod ids;
mod pairs;
mod replies;
mod steps;
