//! Keepers over databases in memory, and over disks in memory that stop.
mod agrees;
mod disks;
mod hosts;
mod queries;
mod read;
mod refused;
mod rows;
mod same;
mod single;
mod stops;
mod upgrades;
