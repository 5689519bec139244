//! One printer, and what the printers share.
mod printer;
mod stock;
