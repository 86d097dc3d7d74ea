// What each refusal reads like as text. The texts are written out here once more: the number, where there is one the place, and the reason.
use engine::refusal::Refusal;
use ledger::PostRefused;
use market::refusal::Refusal as MarketRefusal;
use std::test::Fail;

const OF_BOOKS: [(MarketRefusal, &str); 18] = [
    (
        MarketRefusal::Minutes,
        "1: an interval lasts 15, 30 or 60 minutes",
    ),
    (MarketRefusal::Count, "2: a day has 1 to 100 intervals"),
    (
        MarketRefusal::NoInterval,
        "3: the day does not have that interval",
    ),
    (
        MarketRefusal::Price,
        "4: a price is from -50000 to 400000 cents per MWh",
    ),
    (
        MarketRefusal::NetPosition,
        "5: the net position is out of range, or its rounding is a step or more away",
    ),
    (MarketRefusal::Full, "6: there is no room for another entry"),
    (
        MarketRefusal::Quantity,
        "7: a quantity is from 1 to 10000 steps",
    ),
    (MarketRefusal::Account, "8: an account is from 2 to 65535"),
    (
        MarketRefusal::Percentage,
        "10: a least percentage is from 1 to 100",
    ),
    (
        MarketRefusal::Short,
        "11: a memory is too short, or there is not one fill for each entry",
    ),
    (
        MarketRefusal::OutsideBounds { entry: 7 },
        "12 at entry 7: the record is outside the bounds of entry",
    ),
    (
        MarketRefusal::OverQuantity { entry: 1 },
        "13 at entry 1: the fill exceeds the quantity",
    ),
    (
        MarketRefusal::ShouldBeEmpty { entry: 2 },
        "14 at entry 2: the limit is worse than the price, so nothing of it may be filled",
    ),
    (
        MarketRefusal::ShouldBeFull { entry: 1_088 },
        "15 at entry 1088: the limit is better than the price, so all of it must be filled",
    ),
    (
        MarketRefusal::BelowLeast { entry: 3 },
        "16 at entry 3: the block is filled below its least percentage",
    ),
    (
        MarketRefusal::BlockPrice { entry: 4 },
        "17 at entry 4: the prices of its intervals do not reach the block's limit",
    ),
    (
        MarketRefusal::Unbalanced { interval: 100 },
        "18 at interval 100: sales less purchases are not the net position",
    ),
    (
        MarketRefusal::Unbalanced { interval: 0 },
        "18 at interval 0: sales less purchases are not the net position",
    ),
];

// There is no entry 0, and nothing is said of it.
const AT_NO_ENTRY: [(MarketRefusal, &str); 6] = [
    (
        MarketRefusal::OutsideBounds { entry: 0 },
        "12: the record is outside the bounds of entry",
    ),
    (
        MarketRefusal::OverQuantity { entry: 0 },
        "13: the fill exceeds the quantity",
    ),
    (
        MarketRefusal::ShouldBeEmpty { entry: 0 },
        "14: the limit is worse than the price, so nothing of it may be filled",
    ),
    (
        MarketRefusal::ShouldBeFull { entry: 0 },
        "15: the limit is better than the price, so all of it must be filled",
    ),
    (
        MarketRefusal::BelowLeast { entry: 0 },
        "16: the block is filled below its least percentage",
    ),
    (
        MarketRefusal::BlockPrice { entry: 0 },
        "17: the prices of its intervals do not reach the block's limit",
    ),
];

const OF_SETTLING: [(Refusal, &str); 6] = [
    (Refusal::NotUnsettled, "19: the interval is not unsettled"),
    (
        Refusal::NotOut,
        "22: the day does not show the interval out with that remainder",
    ),
    (Refusal::NotNoted, "23: the interval is not noted"),
    (Refusal::NotClosed, "24: the interval is not closed"),
    (
        Refusal::Posting(PostRefused::NotOpen { account: 0 }),
        "20 at account 0: the account is not open",
    ),
    (
        Refusal::Posting(PostRefused::OutOfBounds { account: 65_535 }),
        "21 at account 65535: the balance would be out of bounds",
    ),
];

// Whether a refusal prints a text.
fn prints(rt: &HostRuntime, refusal: Refusal, text: &str) -> Result<bool, Fail> {
    Ok(format!(in rt.alloc(); "{refusal}")?.as_str() == text)
}

// Whether a refusal of a book prints a text, also where it is handed on by a settling call.
fn prints_of_a_book(rt: &HostRuntime, refusal: MarketRefusal, text: &str) -> Result<bool, Fail> {
    let alone = format!(in rt.alloc(); "{refusal}")?.as_str() == text;
    Ok(alone && prints(rt, Refusal::Market(refusal), text)?)
}

#[test]
fn refusals_of_a_book_read_like_this(rt: HostRuntime) -> Result<(), Fail> {
    for (refusal, text) in OF_BOOKS {
        assert!(rt; prints_of_a_book(&rt, refusal, text)?);
    }
    for (refusal, text) in AT_NO_ENTRY {
        assert!(rt; prints_of_a_book(&rt, refusal, text)?);
    }
    Ok(())
}

#[test]
fn refusals_of_settling_read_like_this(rt: HostRuntime) -> Result<(), Fail> {
    for (refusal, text) in OF_SETTLING {
        assert!(rt; prints(&rt, refusal, text)?);
    }
    Ok(())
}
