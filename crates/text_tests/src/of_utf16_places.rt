mod places;
mod server;
