// Fields by the names of xHCI 1.2, section 6.2: crates/context_block/specs/Fields.antt.
ghost use Rattle.std.specs.Prelude.{◌≡◌};
ghost use Rattle.context_field.specs.Field.{bit};

use crate::Field;

// Input Control Context.
impl Field {
    pub const DROP_FLAGS: Field = Field {
        word: 0,
        low: 2,
        width: 30,
    };

    pub const ADD_FLAGS: Field = Field {
        word: 1,
        low: 0,
        width: 32,
    };

    pub const CONFIGURATION_VALUE: Field = Field {
        word: 7,
        low: 0,
        width: 8,
    };

    pub const INTERFACE_NUMBER: Field = Field {
        word: 7,
        low: 8,
        width: 8,
    };

    pub const ALTERNATE_SETTING: Field = Field {
        word: 7,
        low: 16,
        width: 8,
    };

    fn bit(word: usize, low: u8) -> Field
        ensures { result ≡ bit word low }
    {
        Field {
            word,
            low: low as usize,
            width: 1,
        }
    }

    // The drop flag of a Dci.
    pub fn drop_flag(dci: u8) -> Field
        ensures { result ≡ bit 0 dci }
    {
        Field::bit(0, dci)
    }

    // Its add flag.
    pub fn add_flag(dci: u8) -> Field
        ensures { result ≡ bit 1 dci }
    {
        Field::bit(1, dci)
    }
}

// Slot Context.
impl Field {
    pub const ROUTE_STRING: Field = Field {
        word: 0,
        low: 0,
        width: 20,
    };

    pub const SPEED: Field = Field {
        word: 0,
        low: 20,
        width: 4,
    };

    pub const MTT: Field = Field {
        word: 0,
        low: 25,
        width: 1,
    };

    pub const HUB: Field = Field {
        word: 0,
        low: 26,
        width: 1,
    };

    pub const CONTEXT_ENTRIES: Field = Field {
        word: 0,
        low: 27,
        width: 5,
    };

    pub const ROOT_HUB_PORT_NUMBER: Field = Field {
        word: 1,
        low: 16,
        width: 8,
    };

    pub const NUMBER_OF_PORTS: Field = Field {
        word: 1,
        low: 24,
        width: 8,
    };

    pub const PARENT_HUB_SLOT_ID: Field = Field {
        word: 2,
        low: 0,
        width: 8,
    };

    pub const PARENT_PORT_NUMBER: Field = Field {
        word: 2,
        low: 8,
        width: 8,
    };

    pub const TT_THINK_TIME: Field = Field {
        word: 2,
        low: 16,
        width: 2,
    };
}

// Endpoint Context.
impl Field {
    pub const MULT: Field = Field {
        word: 0,
        low: 8,
        width: 2,
    };

    pub const INTERVAL: Field = Field {
        word: 0,
        low: 16,
        width: 8,
    };

    pub const MAX_ESIT_PAYLOAD_HI: Field = Field {
        word: 0,
        low: 24,
        width: 8,
    };

    pub const CERR: Field = Field {
        word: 1,
        low: 1,
        width: 2,
    };

    pub const EP_TYPE: Field = Field {
        word: 1,
        low: 3,
        width: 3,
    };

    pub const MAX_BURST_SIZE: Field = Field {
        word: 1,
        low: 8,
        width: 8,
    };

    pub const MAX_PACKET_SIZE: Field = Field {
        word: 1,
        low: 16,
        width: 16,
    };

    pub const DCS: Field = Field {
        word: 2,
        low: 0,
        width: 1,
    };

    pub const TR_DEQUEUE_POINTER_LO: Field = Field {
        word: 2,
        low: 4,
        width: 28,
    };

    pub const TR_DEQUEUE_POINTER_HI: Field = Field {
        word: 3,
        low: 0,
        width: 32,
    };

    pub const AVERAGE_TRB_LENGTH: Field = Field {
        word: 4,
        low: 0,
        width: 16,
    };

    pub const MAX_ESIT_PAYLOAD_LO: Field = Field {
        word: 4,
        low: 16,
        width: 16,
    };
}
