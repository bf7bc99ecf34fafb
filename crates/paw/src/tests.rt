// Commands about sessions, what each command has in rows, and outcomes, over stages in memory.

mod calls;
mod commands;
mod outcomes;
mod running;
mod sessions;
mod stops;
