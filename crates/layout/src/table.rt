// The table of fields: every width, offset and range of the record format stands here, once, and
// behind it the fields of each kind. The market's own ranges are those of `limits`. Where the rule
// names the figures (a list's numbers, the numbers of lists and totals), `high` is only what the
// bits can hold. A field that differs from another in some parts says those parts alone; one whose
// range does not begin at 0 says all.
use crate::field::{Field, Rule};
use limits::{CORRIDOR_LIMIT, HALF_EUROS_LIMIT, NEED_LIMIT, PRICE_LIMIT, QUANTITY_LIMIT, ZONES};
use names::lists::ListName;

const LAST_ZONE: i64 = ZONES as i64 - 1;

// A field of numbers from 0 on, with no rule besides its range: its width and its end are to say.
const NATURAL: Field = Field {
    width: 0,
    offset: 0,
    low: 0,
    high: 0,
    rule: Rule::Within,
};

const ZONE: Field = Field {
    width: 4,
    high: LAST_ZONE,
    ..NATURAL
};

const TO_ZONE: Field = Field {
    rule: Rule::OtherThanFromZone,
    ..ZONE
};

// Cents per MWh.
const PRICE: Field = Field {
    width: 21,
    offset: 1_000_000,
    low: -PRICE_LIMIT,
    high: PRICE_LIMIT,
    rule: Rule::Within,
};

const NEED: Field = Field {
    width: 16,
    offset: 20_000,
    low: -NEED_LIMIT,
    high: NEED_LIMIT,
    rule: Rule::Within,
};

const ORDINARY_NUMBER: Field = Field {
    width: 10,
    high: 1023,
    rule: Rule::NumberIn(ListName::Ordinary),
    ..NATURAL
};

const WHOLE_NUMBER: Field = Field {
    rule: Rule::NumberIn(ListName::Whole),
    ..ORDINARY_NUMBER
};

const CORRIDOR_NUMBER: Field = Field {
    width: 5,
    high: 31,
    rule: Rule::NumberIn(ListName::Corridors),
    ..NATURAL
};

const DIRECTION: Field = Field {
    width: 1,
    high: 1,
    rule: Rule::NamesDirection,
    ..NATURAL
};

// A bid's price is a multiple of half a euro per MWh.
const HALF_EUROS: Field = Field {
    width: 16,
    offset: 20_000,
    low: -HALF_EUROS_LIMIT,
    high: HALF_EUROS_LIMIT,
    rule: Rule::Within,
};

const STATION_GROUP: Field = Field {
    width: 12,
    high: 4095,
    ..NATURAL
};

const QUANTITY: Field = Field {
    width: 14,
    high: QUANTITY_LIMIT,
    rule: Rule::Quantity,
    ..NATURAL
};

const ORDINARY_QUANTITY: Field = Field {
    rule: Rule::OrdinaryQuantity,
    ..QUANTITY
};

const LIMIT: Field = Field {
    width: 12,
    high: CORRIDOR_LIMIT,
    ..NATURAL
};

const LIST: Field = Field {
    width: 4,
    high: 15,
    rule: Rule::NamesList,
    ..NATURAL
};

const BID_LIST: Field = Field {
    rule: Rule::NamesBidList,
    ..LIST
};

const LISTED_NUMBER: Field = Field {
    rule: Rule::NumberInNamedList,
    ..ORDINARY_NUMBER
};

const MEGAWATTS: Field = Field {
    width: 15,
    offset: 10_000,
    low: -QUANTITY_LIMIT,
    high: QUANTITY_LIMIT,
    rule: Rule::Within,
};

// Money is counted in units of a quarter of a cent: one cent per MWh times one MW for a quarter.
const PAYMENT: Field = Field {
    width: 37,
    offset: 40_000_000_000,
    low: -39_996_000_000,
    high: 39_996_000_000,
    rule: Rule::Within,
};

const DEDUCTION: Field = Field {
    width: 37,
    high: 79_992_000_000,
    ..NATURAL
};

const WHICH_TOTAL: Field = Field {
    width: 4,
    high: 15,
    rule: Rule::NamesTotal,
    ..NATURAL
};

const TOTAL_VALUE: Field = Field {
    width: 64,
    offset: 0,
    low: i64::MIN,
    high: i64::MAX,
    rule: Rule::Within,
};

const HOUR: Field = Field {
    width: 32,
    high: 4_294_967_295,
    ..NATURAL
};

const RATE: Field = Field {
    width: 20,
    high: 1_000_000,
    ..NATURAL
};

const COUNT: Field = Field {
    width: 12,
    high: 4095,
    ..NATURAL
};

const PROPOSAL_COUNT: Field = Field { high: 512, ..COUNT };

pub(crate) const ZONE_FIELDS: [Field; 6] = [ZONE, PRICE, NEED, NEED, NEED, NEED];

pub(crate) const ORDINARY_FIELDS: [Field; 9] = [
    ORDINARY_NUMBER,
    ZONE,
    DIRECTION,
    HALF_EUROS,
    STATION_GROUP,
    ORDINARY_QUANTITY,
    ORDINARY_QUANTITY,
    ORDINARY_QUANTITY,
    ORDINARY_QUANTITY,
];

pub(crate) const WHOLE_FIELDS: [Field; 9] = [
    WHOLE_NUMBER,
    ZONE,
    DIRECTION,
    HALF_EUROS,
    STATION_GROUP,
    QUANTITY,
    QUANTITY,
    QUANTITY,
    QUANTITY,
];

pub(crate) const CORRIDOR_FIELDS: [Field; 11] = [
    CORRIDOR_NUMBER,
    ZONE,
    TO_ZONE,
    LIMIT,
    LIMIT,
    LIMIT,
    LIMIT,
    LIMIT,
    LIMIT,
    LIMIT,
    LIMIT,
];

pub(crate) const WITHDRAWAL_FIELDS: [Field; 2] = [BID_LIST, LISTED_NUMBER];

pub(crate) const PRICES_FIELDS: [Field; 5] = [ZONE, PRICE, PRICE, PRICE, PRICE];

pub(crate) const SCHEDULE_FIELDS: [Field; 6] = [
    LIST,
    LISTED_NUMBER,
    MEGAWATTS,
    MEGAWATTS,
    MEGAWATTS,
    MEGAWATTS,
];

pub(crate) const METER_FIELDS: [Field; 6] = [
    BID_LIST,
    LISTED_NUMBER,
    MEGAWATTS,
    MEGAWATTS,
    MEGAWATTS,
    MEGAWATTS,
];

pub(crate) const LINE_FIELDS: [Field; 4] = [BID_LIST, LISTED_NUMBER, PAYMENT, DEDUCTION];

pub(crate) const TOTAL_FIELDS: [Field; 2] = [WHICH_TOTAL, TOTAL_VALUE];

pub(crate) const HEADER_FIELDS: [Field; 5] = [HOUR, RATE, COUNT, PROPOSAL_COUNT, COUNT];
