// The field rules: each answers true exactly where the field meets its rule (fields/specs/Rules).
#![tactic(auto)]

ghost use Rattle.std.specs.Prelude.{◌≡◌};
ghost use Rattle.fields.specs.Rules.{good_symbol, good_side, good_trade_side, good_quantity, good_price, good_inside_price, good_unsolicited, good_session};

const TOP_PRICE: u64 = 9_223_372_036_854_775_807;

pub fn good_symbol(symbol: [u8; 14]) -> bool
    ensures { result ≡ good_symbol symbol }
{
    symbol[0] != 0x20 && symbol.iter().all(|c| (0x20..=0x7E).contains(c))
}

#[tactic(auto, unfolding(fields::specs::Tests::either))]
pub fn good_side(side: u8) -> bool
    ensures { result ≡ good_side side }
{
    matches!(side, b'B' | b'S')
}

pub fn good_trade_side(side: u8) -> bool
    ensures { result ≡ good_trade_side side }
{
    side == b'B'
}

pub fn good_quantity(quantity: u32) -> bool
    ensures { result ≡ good_quantity quantity }
{
    1 <= quantity
}

#[tactic(auto, unfolding(fields::specs::Tests::between))]
pub fn good_price(price: u64) -> bool
    ensures { result ≡ good_price price }
{
    (1..=TOP_PRICE).contains(&price)
}

// Its lower end is all that differs from `good_price`: a rule of its own, under the name that contracts cite.
#[tactic(auto, unfolding(fields::specs::Tests::between))]
pub fn good_inside_price(price: u64) -> bool
    ensures { result ≡ good_inside_price price }
{
    (0..=TOP_PRICE).contains(&price)
}

#[tactic(auto, unfolding(fields::specs::Tests::either))]
pub fn good_unsolicited(flag: u8) -> bool
    ensures { result ≡ good_unsolicited flag }
{
    matches!(flag, b'Y' | b'N')
}

#[tactic(auto, unfolding(fields::specs::Tests::either, fields::specs::Rules::good_session))]
pub fn good_session(session: u8) -> bool
    ensures { result ≡ good_session session }
{
    matches!(session, 1 | 5 | 6)
}
