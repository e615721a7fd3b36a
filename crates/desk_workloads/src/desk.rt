//! The desks at which the work is done.

ghost use Rattle.std.specs.Prelude.{◌<◌};

pub use desk_files::Desk;
use desk_files::new_desk;
use std::alloc::Global;

/// The key of each desk.
pub const KEY: u128 = 0x5eed;

/// A desk without operations.
pub fn desk_of(alloc: Global, site: u16) -> Desk
    requires { 0 < site }
{
    new_desk(alloc, site, KEY)
}
