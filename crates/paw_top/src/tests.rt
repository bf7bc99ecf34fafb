// Commands with no session, over stages in memory.

mod bounds;
mod games;
mod running;
mod sources;
mod walks;
