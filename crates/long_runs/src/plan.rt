// A day with its book and a paper that passes by construction.
use crate::dice::Dice;
use anyhow::anyhow;
use market::records::{Block, Book, Fills, Market, Order, Side};
use std::alloc::{AllocError, Global};

const THOUSANDTHS_PER_STEP: u32 = 100;

// How the orders of an interval are filled.
#[derive(Clone, Copy, PartialEq, Eq, Debug)]
enum Mood {
    // Nothing comes to a step.
    Quiet,
    // The one side has entries of one step each, the other has nothing that comes to a step: the cuts cannot reach.
    Ones(Side),
    Lively,
}

/// What an interval is set to.
#[derive(Clone, Copy, Debug)]
pub(crate) struct Terms {
    pub(crate) interval: i32,
    pub(crate) price: i32,
    pub(crate) net: i32,
    pub(crate) rounded: i32,
}

// An interval while its orders are drawn.
#[derive(Clone, Copy, Debug)]
struct Draft {
    interval: i32,
    price: i32,
    mood: Mood,
}

/// A day with its book and a paper on it.
#[derive(Debug, Drop)]
pub(crate) struct Plan {
    pub(crate) minutes: i32,
    pub(crate) terms: Vec<Terms>,
    pub(crate) orders: Vec<Order>,
    pub(crate) blocks: Vec<Block>,
    pub(crate) order_fills: Vec<u32>,
    pub(crate) block_fills: Vec<u32>,
}

impl Plan {
    pub(crate) fn book(&self) -> Book<'_> {
        Book {
            orders: &self.orders,
            blocks: &self.blocks,
        }
    }

    pub(crate) fn fills(&self) -> Fills<'_> {
        Fills {
            orders: &self.order_fills,
            blocks: &self.block_fills,
        }
    }

    /// How many entries the book has.
    pub(crate) fn entries(&self) -> usize {
        self.orders.len().saturating_add(self.blocks.len())
    }

    /// How many numbers a sheet needs.
    pub(crate) fn sheet_len(&self) -> usize {
        let rows = self.blocks.len().saturating_mul(self.terms.len());
        self.orders.len().saturating_add(rows)
    }

    /// Draws a day.
    pub(crate) fn draw(alloc: Global, dice: &mut Dice) -> anyhow::Result<Plan> {
        let drafts = draw_drafts(alloc, dice)?;
        let minutes = match dice.below(3) {
            0 => 15,
            1 => 30,
            _ => 60,
        };
        let mut plan = Plan {
            minutes,
            terms: Vec::new(alloc),
            orders: Vec::new(alloc),
            blocks: Vec::new(alloc),
            order_fills: Vec::new(alloc),
            block_fills: Vec::new(alloc),
        };
        for draft in &drafts {
            plan.draw_orders(dice, *draft)?;
        }
        if dice.one_in(2) {
            plan.draw_blocks(dice, &drafts)?;
        }
        for draft in &drafts {
            plan.set_terms(dice, *draft)?;
        }
        Ok(plan)
    }

    fn draw_orders(&mut self, dice: &mut Dice, draft: Draft) -> Result<(), AllocError> {
        for _ in 0..1 + dice.below(5) {
            let (order, fill) = draw_order(dice, draft);
            self.orders.push(order)?;
            self.order_fills.push(fill)?;
        }
        Ok(())
    }

    fn draw_blocks(&mut self, dice: &mut Dice, drafts: &[Draft]) -> Result<(), AllocError> {
        for _ in 0..1 + dice.below(3) {
            if let Some((block, fill)) = draw_block(dice, drafts) {
                self.blocks.push(block)?;
                self.block_fills.push(fill)?;
            }
        }
        Ok(())
    }

    // The net position is what the fills come to, and its rounding is one of the two multiples beside it.
    fn set_terms(&mut self, dice: &mut Dice, draft: Draft) -> anyhow::Result<()> {
        let net = i32::try_from(self.net(draft.interval))
            .ok()
            .ok_or_else(|| anyhow!("a net position is out of range"))?;
        let lower = net.div_euclid(100);
        let is_multiple = net.rem_euclid(100) == 0;
        let rounded = if is_multiple || dice.one_in(2) {
            lower
        } else {
            lower + 1
        };
        self.terms.push(Terms {
            interval: draft.interval,
            price: draft.price,
            net,
            rounded,
        })?;
        Ok(())
    }

    // Sales less purchases of an interval, in thousandths.
    fn net(&self, interval: i32) -> i64 {
        let mut net: i64 = 0;
        for (order, fill) in self.orders.iter().zip(&self.order_fills) {
            if order.interval == interval {
                net = net.saturating_add(order.side.signed(*fill));
            }
        }
        for (block, fill) in self.blocks.iter().zip(&self.block_fills) {
            if (block.first..=block.last).contains(&interval) {
                net = net.saturating_add(block.side.signed(*fill));
            }
        }
        net
    }
}

fn draw_drafts(alloc: Global, dice: &mut Dice) -> Result<Vec<Draft>, AllocError> {
    let mut drafts = Vec::new(alloc);
    for place in 0..1 + dice.below(4) {
        drafts.push(Draft {
            interval: place as i32 + 1,
            price: dice.below(12_001) as i32 - 3_000,
            mood: draw_mood(dice),
        })?;
    }
    Ok(drafts)
}

fn draw_mood(dice: &mut Dice) -> Mood {
    match dice.below(6) {
        0 => Mood::Quiet,
        1 => Mood::Ones(Side::Sell),
        2 => Mood::Ones(Side::Buy),
        _ => Mood::Lively,
    }
}

fn draw_side(dice: &mut Dice) -> Side {
    if dice.one_in(2) {
        Side::Sell
    } else {
        Side::Buy
    }
}

fn draw_account(dice: &mut Dice) -> i32 {
    dice.below(8) as i32 + 2
}

// An order with its fill. Mostly its limit is the price, so that any fill is right. Where it is better, the order has to be full, and
// where it is worse, empty.
fn draw_order(dice: &mut Dice, draft: Draft) -> (Order, u32) {
    let side = draw_side(dice);
    let quantity = dice.below(6) + 1;
    let full = quantity * THOUSANDTHS_PER_STEP;
    let (gain, fill) = match (draft.mood, dice.below(8)) {
        (Mood::Lively, 0) => (200, full),
        (Mood::Lively, 1) => (-200, 0),
        (mood, _) => (0, draw_fill(dice, mood, side, full)),
    };
    let limit = match side {
        Side::Sell => draft.price.saturating_sub(gain),
        Side::Buy => draft.price.saturating_add(gain),
    };
    let order = Order {
        side,
        interval: draft.interval,
        limit,
        quantity: quantity as i32,
        market: if dice.one_in(3) {
            Market::Derivative
        } else {
            Market::Spot
        },
        stamp: dice.below(4) as i32,
        account: draw_account(dice),
    };
    (order, fill)
}

fn draw_fill(dice: &mut Dice, mood: Mood, side: Side, full: u32) -> u32 {
    match mood {
        Mood::Quiet => dice.below(50),
        Mood::Ones(stuck) if stuck == side => 50 + dice.below(50),
        Mood::Ones(_) => dice.below(50),
        Mood::Lively => match dice.below(6) {
            0 => full,
            1 => dice.below(50),
            2 => (50 + dice.below(100)).min(full),
            _ => dice.below(600).min(full),
        },
    }
}

// A block over one or more intervals, with its fill. Its limit is the least favourable of their prices, so the prices pay for it.
fn draw_block(dice: &mut Dice, drafts: &[Draft]) -> Option<(Block, u32)> {
    let side = draw_side(dice);
    let skipped = dice.below(3) as usize;
    let first = drafts.get(skipped)?;
    let mut last = first;
    let mut limit = first.price;
    for draft in drafts.iter().skip(skipped).take(1 + dice.below(3) as usize) {
        last = draft;
        limit = match side {
            Side::Sell => limit.min(draft.price),
            Side::Buy => limit.max(draft.price),
        };
    }
    let quantity = dice.below(6) + 1;
    let block = Block {
        side,
        first: first.interval,
        last: last.interval,
        limit,
        quantity: quantity as i32,
        least: 1,
        stamp: dice.below(4) as i32,
        account: draw_account(dice),
    };
    Some((block, draw_block_fill(dice, quantity)))
}

// Nothing, or at least one percent.
fn draw_block_fill(dice: &mut Dice, quantity: u32) -> u32 {
    let full = quantity.saturating_mul(THOUSANDTHS_PER_STEP);
    match dice.below(5) {
        0 => 0,
        1 => full,
        2 => quantity.saturating_add(dice.below(50)).min(full),
        _ => quantity.saturating_add(dice.below(600)).min(full),
    }
}
