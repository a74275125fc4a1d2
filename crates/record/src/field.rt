// What the fields of a record hold.
ghost use Rattle.std.specs.Prelude.{◌≡◌, ◌^◌, ◌<◌, ◌≤◌, ℤ, pos};
ghost use Rattle.record.specs.Format.{Form, unsigned, signed, width, bits, Fit};

// A value that a field of a record holds: of each type the field has one form.
pub(crate) trait Held: Copy {
    ghost form: { Form };

    ghost value: { Self → ℤ };

    // How many bytes the field has.
    fn width() -> usize
        ensures value { result ≡ width form }
        ensures narrow { width form ≤ 8 };

    // The number whose bytes stand for the value.
    fn number(self) -> u64
        ensures { result ≡ bits form (value self) };

    // The value for which the number stands.
    fn of_number(number: u64) -> Self
        requires { number < 256 ^ width form }
        ensures number { number ≡ bits form (value result) }
        ensures fits { Fit form (value result) };
}

// A party. Its number has a wide type everywhere else, since only the record knows how many bytes it takes.
#[derive(Clone, Copy)]
pub(crate) struct Party(pub u64);

impl Held for Party {
    ghost form = { unsigned 2 };

    ghost value = { λ party. pos party.0 };

    fn width() -> usize {
        2
    }

    fn number(self) -> u64 {
        self.0
    }

    fn of_number(number: u64) -> Party {
        Party(number)
    }
}

// The unsigned types are alike, and each has an impl of its own: a macro may write no ghost member,
// and one impl over the conversions would take a second trait, for the form of each type.
impl Held for u8 {
    ghost form = { unsigned 1 };

    ghost value = { λ n. pos n };

    fn width() -> usize {
        1
    }

    fn number(self) -> u64 {
        u64::from(self)
    }

    fn of_number(number: u64) -> u8 {
        number as u8
    }
}

impl Held for u16 {
    ghost form = { unsigned 2 };

    ghost value = { λ n. pos n };

    fn width() -> usize {
        2
    }

    fn number(self) -> u64 {
        u64::from(self)
    }

    fn of_number(number: u64) -> u16 {
        number as u16
    }
}

impl Held for u32 {
    ghost form = { unsigned 4 };

    ghost value = { λ n. pos n };

    fn width() -> usize {
        4
    }

    fn number(self) -> u64 {
        u64::from(self)
    }

    fn of_number(number: u64) -> u32 {
        number as u32
    }
}

impl Held for u64 {
    ghost form = { unsigned 8 };

    ghost value = { λ n. pos n };

    fn width() -> usize {
        8
    }

    fn number(self) -> u64 {
        self
    }

    fn of_number(number: u64) -> u64 {
        number
    }
}

impl Held for i32 {
    ghost form = { signed 4 };

    ghost value = { λ z. z };

    fn width() -> usize {
        4
    }

    fn number(self) -> u64 {
        u64::from(self.cast_unsigned())
    }

    fn of_number(number: u64) -> i32 {
        (number as u32).cast_signed()
    }
}

impl Held for i64 {
    ghost form = { signed 8 };

    ghost value = { λ z. z };

    fn width() -> usize {
        8
    }

    fn number(self) -> u64 {
        self.cast_unsigned()
    }

    fn of_number(number: u64) -> i64 {
        number.cast_signed()
    }
}
