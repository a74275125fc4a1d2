// The numbers of directions, periods, registers, tables and limits. `number` is their conversion by the name that callers and contracts have for it.
ghost use Rattle.std.specs.Prelude.{◌≡◌};
ghost use Rattle.fault.specs.Values.{direction_number, limit_number, period_number, register_number, table_number};

use crate::cause::{Direction, Limit, Period, Register, TableKind};

impl From<Direction> for u8 {
    ghost from_gives = { λ direction number. number ≡ direction_number direction };

    fn from(direction: Direction) -> u8 {
        direction as u8
    }
}

impl Direction {
    pub fn number(self) -> u8
        ensures { result ≡ direction_number self }
    {
        u8::from(self)
    }
}

impl From<Period> for u8 {
    ghost from_gives = { λ period number. number ≡ period_number period };

    fn from(period: Period) -> u8 {
        period as u8
    }
}

impl Period {
    pub fn number(self) -> u8
        ensures { result ≡ period_number self }
    {
        u8::from(self)
    }
}

impl From<Register> for u8 {
    ghost from_gives = { λ register number. number ≡ register_number register };

    fn from(register: Register) -> u8 {
        2 * register.direction.number() + register.period.number()
    }
}

impl Register {
    pub fn number(self) -> u8
        ensures { result ≡ register_number self }
    {
        u8::from(self)
    }
}

impl From<TableKind> for u8 {
    ghost from_gives = { λ table number. number ≡ table_number table };

    fn from(table: TableKind) -> u8 {
        table as u8
    }
}

impl TableKind {
    pub fn number(self) -> u8
        ensures { result ≡ table_number self }
    {
        u8::from(self)
    }
}

impl From<Limit> for u8 {
    ghost from_gives = { λ limit number. number ≡ limit_number limit };

    fn from(limit: Limit) -> u8 {
        limit as u8
    }
}

impl Limit {
    pub fn number(self) -> u8
        ensures { result ≡ limit_number self }
    {
        u8::from(self)
    }
}
