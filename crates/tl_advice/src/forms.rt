//! The forms of the lines: of a topology, a fragment and a script.

use crate::fields::{Field, Form, Spelling, field_at};

const WORD: Field = Field {
    name: "COMMAND",
    spelling: Spelling::Fixed,
};

const LINK: Field = Field {
    name: "LINK",
    spelling: Spelling::Name,
};

const MANAGER: Field = Field {
    name: "MANAGER",
    spelling: Spelling::Name,
};

const NAME: Field = Field {
    name: "NAME",
    spelling: Spelling::Name,
};

const NUMBER: Field = Field {
    name: "NUMBER",
    spelling: Spelling::Decimal {
        least: 0,
        most: 4_294_967_295,
    },
};

const FIRST: Field = Field {
    name: "FIRST",
    spelling: Spelling::Decimal {
        least: 0,
        most: u64::MAX,
    },
};

const LAST: Field = Field {
    name: "LAST",
    spelling: Spelling::Decimal {
        least: 0,
        most: u64::MAX,
    },
};

const CYCLE: Field = Field {
    name: "CYCLE",
    spelling: Spelling::Decimal {
        least: 0,
        most: u64::MAX,
    },
};

const CHANNEL: Field = Field {
    name: "CHANNEL",
    spelling: Spelling::Channel,
};

const OPCODE: Field = Field {
    name: "OPCODE",
    spelling: Spelling::Decimal { least: 0, most: 7 },
};

const PARAM: Field = Field {
    name: "PARAM",
    spelling: Spelling::Decimal { least: 0, most: 7 },
};

const SIZE: Field = Field {
    name: "SIZE",
    spelling: Spelling::Exponent,
};

const SOURCE: Field = Field {
    name: "SOURCE",
    spelling: Spelling::Decimal {
        least: 0,
        most: 65_535,
    },
};

const SINK: Field = Field {
    name: "SINK",
    spelling: Spelling::Decimal {
        least: 0,
        most: 65_535,
    },
};

const ADDRESS: Field = Field {
    name: "ADDRESS",
    spelling: Spelling::Hexadecimal,
};

const MASK: Field = Field {
    name: "MASK",
    spelling: Spelling::Hexadecimal,
};

const DENIED: Field = Field {
    name: "DENIED",
    spelling: Spelling::Bit,
};

const CORRUPT: Field = Field {
    name: "CORRUPT",
    spelling: Spelling::Bit,
};

const BLOCK: Field = Field {
    name: "BLOCK",
    spelling: Spelling::Power {
        least: 8,
        most: 4_096,
    },
};

const LEVEL: Field = Field {
    name: "LEVEL",
    spelling: Spelling::Level,
};

const WIDTH: Field = Field {
    name: "WIDTH",
    spelling: Spelling::Power { least: 1, most: 64 },
};

const MAXSIZE: Field = Field {
    name: "MAXSIZE",
    spelling: Spelling::Exponent,
};

const SOURCES: Field = Field {
    name: "SOURCES",
    spelling: Spelling::Decimal {
        least: 1,
        most: 65_536,
    },
};

const BYTES: Field = Field {
    name: "BYTES",
    spelling: Spelling::Decimal {
        least: 0,
        most: 8_388_608,
    },
};

const REGION: Field = Field {
    name: "NUMBER",
    spelling: Spelling::Decimal {
        least: 0,
        most: 255,
    },
};

const FROM: Field = Field {
    name: "FIRST",
    spelling: Spelling::Hexadecimal,
};

const TO: Field = Field {
    name: "LAST",
    spelling: Spelling::Hexadecimal,
};

const PERMITS: Field = Field {
    name: "PERMITS",
    spelling: Spelling::Permits,
};

const LIMIT: Field = Field {
    name: "LIMIT",
    spelling: Spelling::Decimal {
        least: 0,
        most: 4_294_967_295,
    },
};

const CHAN: Field = Field {
    name: "CHAN",
    spelling: Spelling::Channel,
};

/// The first line of a fragment.
pub const HEADER: Form = Form {
    text: "fragment LINK NUMBER FIRST LAST",
    fields: &[WORD, LINK, NUMBER, FIRST, LAST],
};

const ACCESS: Form = Form {
    text: "CYCLE A OPCODE PARAM SIZE SOURCE ADDRESS MASK CORRUPT",
    fields: &[
        CYCLE, CHANNEL, OPCODE, PARAM, SIZE, SOURCE, ADDRESS, MASK, CORRUPT,
    ],
};

const PROBE: Form = Form {
    text: "CYCLE B OPCODE PARAM SIZE SOURCE ADDRESS MASK CORRUPT",
    fields: &[
        CYCLE, CHANNEL, OPCODE, PARAM, SIZE, SOURCE, ADDRESS, MASK, CORRUPT,
    ],
};

const RELEASE: Form = Form {
    text: "CYCLE C OPCODE PARAM SIZE SOURCE ADDRESS CORRUPT",
    fields: &[
        CYCLE, CHANNEL, OPCODE, PARAM, SIZE, SOURCE, ADDRESS, CORRUPT,
    ],
};

const REPLY: Form = Form {
    text: "CYCLE D OPCODE PARAM SIZE SOURCE SINK DENIED CORRUPT",
    fields: &[
        CYCLE, CHANNEL, OPCODE, PARAM, SIZE, SOURCE, SINK, DENIED, CORRUPT,
    ],
};

const ACK: Form = Form {
    text: "CYCLE E SINK",
    fields: &[CYCLE, CHANNEL, SINK],
};

/// The line of a manager.
pub const MANAGER_LINE: Form = Form {
    text: "manager NAME BLOCK",
    fields: &[WORD, NAME, BLOCK],
};

/// The line of a link.
pub const LINK_LINE: Form = Form {
    text: "link NAME MANAGER LEVEL WIDTH MAXSIZE SOURCES",
    fields: &[WORD, NAME, MANAGER, LEVEL, WIDTH, MAXSIZE, SOURCES],
};

/// The line of a link in a topology of version 2.
pub const STRICT_LINE: Form = Form {
    text: "link NAME MANAGER LEVEL WIDTH MAXSIZE SOURCES strict",
    fields: &[WORD, NAME, MANAGER, LEVEL, WIDTH, MAXSIZE, SOURCES, WORD],
};

const ADD: Form = Form {
    text: "add BYTES",
    fields: &[WORD, BYTES],
};

const REPLACE: Form = Form {
    text: "replace BYTES",
    fields: &[WORD, BYTES],
};

const WITHDRAW: Form = Form {
    text: "withdraw LINK NUMBER",
    fields: &[WORD, LINK, NUMBER],
};

const CLEAR: Form = Form {
    text: "clear LINK",
    fields: &[WORD, LINK],
};

const REGION_LINE: Form = Form {
    text: "region MANAGER NUMBER FIRST LAST PERMITS",
    fields: &[WORD, MANAGER, REGION, FROM, TO, PERMITS],
};

const UNREGION: Form = Form {
    text: "unregion MANAGER NUMBER",
    fields: &[WORD, MANAGER, REGION],
};

const BUDGET: Form = Form {
    text: "attach NUMBER budget LINK CHAN OPCODE LIMIT",
    fields: &[WORD, NUMBER, WORD, LINK, CHAN, OPCODE, LIMIT],
};

const AFTER: Form = Form {
    text: "attach NUMBER after LINK CHAN OPCODE CHAN OPCODE",
    fields: &[WORD, NUMBER, WORD, LINK, CHAN, OPCODE, CHAN, OPCODE],
};

const RETUNE: Form = Form {
    text: "retune NUMBER LIMIT",
    fields: &[WORD, NUMBER, LIMIT],
};

const DETACH: Form = Form {
    text: "detach NUMBER",
    fields: &[WORD, NUMBER],
};

const PUBLISH: Form = Form {
    text: "publish",
    fields: &[WORD],
};

/// The form of a beat on the channel that its line names; None where the line names none.
pub fn form_of_beat(line: &[u8]) -> Option<Form> {
    match field_at(line, 1) {
        [b'A'] => Some(ACCESS),
        [b'B'] => Some(PROBE),
        [b'C'] => Some(RELEASE),
        [b'D'] => Some(REPLY),
        [b'E'] => Some(ACK),
        _ => None,
    }
}

/// The form of the monitor that a line attaches, by its kind.
fn form_of_monitor(line: &[u8]) -> Form {
    if field_at(line, 2) == b"after".as_slice() {
        AFTER
    } else {
        BUDGET
    }
}

/// The form of the command that a line begins with; None where it begins with none.
pub fn form_of_command(line: &[u8]) -> Option<Form> {
    let form = match field_at(line, 0) {
        b"add" => ADD,
        b"replace" => REPLACE,
        b"withdraw" => WITHDRAW,
        b"clear" => CLEAR,
        b"region" => REGION_LINE,
        b"unregion" => UNREGION,
        b"attach" => form_of_monitor(line),
        b"retune" => RETUNE,
        b"detach" => DETACH,
        b"publish" => PUBLISH,
        _ => return None,
    };
    Some(form)
}
