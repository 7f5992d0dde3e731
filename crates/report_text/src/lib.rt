// The report as text: RULES, "Files and the report program". A line for each point, or the one line of a refusal.
#![tactic(auto)]

pub mod inner;
pub mod totals;
