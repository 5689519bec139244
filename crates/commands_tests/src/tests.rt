//! The command line, measures, reports and settings.
mod measure;
mod report;
mod settings;
mod words;
