//! Dates as texts: the clock of a zone at a moment, and the formats that print it.

pub use log4rs_base::dates::{
    Clock, DateFormat, Directive, Standard, clock, date_text, directive, format, standard,
};
