//! Texts that desks get from other sites.

use anyhow::{Result, bail};
use bg_types::{Id, Op, Place};
use desk_workloads::{Chance, Desk};

/// The order of the counters along a text.
#[derive(Clone, Copy)]
pub enum Order {
    /// Each character was typed behind the one before.
    Rising,
    /// Each was typed at the front.
    Falling,
    /// Each was typed behind any other one.
    Random,
}

/// Lets a desk take a text that another site typed in this order.
pub fn import(
    desk: &mut Desk,
    site: u16,
    order: Order,
    text: &str,
    chance: &mut Chance,
) -> Result<()> {
    let mut counter = 0u32;
    for ch in text.chars() {
        let parent = match order {
            Order::Rising => place_after(counter, site),
            Order::Falling => Place::Root,
            Order::Random => {
                let before = chance.below(counter as usize);
                place_after(u32::try_from(before).unwrap_or(0), site)
            }
        };
        counter = counter.saturating_add(1);
        let Some(id) = Id::new(counter, site) else {
            bail!("no identifier");
        };
        if let Some(op) = Op::insert(id, parent, ch) {
            desk.take(&op)?;
        }
    }
    Ok(())
}

/// The place after a site's character, or the front where no character has this counter.
fn place_after(counter: u32, site: u16) -> Place {
    match Id::new(counter, site) {
        Some(id) => Place::After(id),
        None => Place::Root,
    }
}
