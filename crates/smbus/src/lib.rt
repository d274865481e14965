// What the bus asks of every message: a lawful address, and the packet error code that ends a message.
#![tactic(auto)]

mod address;
mod exported;
mod packet_error_code;
mod refusal;
mod table;

pub use address::Address;
pub use exported::smbus_code;
pub use packet_error_code::{code, continued, ends_in_code, read_code, write_code};
pub use refusal::AddressRefusal;
