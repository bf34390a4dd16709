//! The call that does all that the program does.
#![tactic(auto)]

mod check;
mod command;
mod complete;
mod completion;
mod direct;
mod ending;
mod help;
mod itself;
mod limits;
mod listing;
mod lower;
mod output;
mod prepare;
mod prune;
mod result_text;
mod spent;

pub use command::run;
pub use ending::{Ending, message, status};
pub use sk_app_streams::{StdSink, StdSource};
pub use sk_cert::CertFault;
pub use sk_check_laws::Reason;
pub use sk_exec::ExecFault;
pub use sk_front::TextFault;
pub use sk_holes::FillFault;
