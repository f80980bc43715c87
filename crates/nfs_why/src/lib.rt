//! Why a call is granted or denied, rule by rule without doing what it asks for; and who may reach
//! which volume.
#![tactic(auto)]

mod asked;
pub mod exports;
mod grant;
pub mod judgement;
pub mod meaning;
mod operation;
mod place;
pub mod question;
pub mod why;
