// The examples of the pages and of the library's documentation, each in one of these files as it is there, or
// indented as part of a test. tools/check-documents compares them.

mod comparisons;
mod depending;
mod filters;
mod front;
mod jailer;
mod machines;
mod permitted;
mod policies;
mod readme;
mod stacks;
mod widened;
