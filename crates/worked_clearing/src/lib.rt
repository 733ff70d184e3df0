// Worked examples: participants' answers and verdicts of the clearing check, on slots as a sheet
// holds them. The figures are worked out by hand. Money is in units of a quarter of a cent: 100.00
// EUR are 40,000.
#![tactic(auto)]

#[cfg(test)]
mod answers;
#[cfg(test)]
mod figures;
#[cfg(test)]
mod verdicts;
