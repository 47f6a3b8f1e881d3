mod batch;
mod counter;
mod desk;
mod serve;
