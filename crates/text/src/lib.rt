// Text that programs read and write: the words of a line, the digits of a number, what is wrong with a line
// of a job, answers, faults and numbers put behind the text of a buffer, and records of recorded answers. Every
// function takes any input, and none calls the model.
#![tactic(auto)]

pub mod answers;
pub mod digits;
pub mod faults;
pub mod line;
pub mod output;
pub mod records;
pub mod words;
