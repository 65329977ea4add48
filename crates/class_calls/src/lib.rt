//! The commands that take no certificate: the table of all commands (`command_rows`), listings into class files (`asm_call`), runs of the
//! machine (`run_call`), and the methods of class files with a description of one to start from (`describe`).
#![tactic(auto)]

pub mod asm_call;
pub mod command_rows;
pub mod describe;
pub mod run_call;
