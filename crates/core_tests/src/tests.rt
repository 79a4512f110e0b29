//! Single calls, among them such as no program makes, bytes that were worked out by hand, printed texts, messages in
//! words and in other layouts, and the table against a plain list.

mod changes;
mod layouts;
mod masks;
mod messages;
mod plain;
mod requests;
mod sockets;
mod table;
mod texts;
mod words;
mod worlds;
