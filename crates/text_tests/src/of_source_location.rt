mod lines;
mod locations;
