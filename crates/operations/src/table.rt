// The table of operations.
ghost use Rattle.std.specs.Prelude.{◌≡◌, map};
ghost use Rattle.operations.specs.Manual.{operations, entry_of, form_at};

use crate::operation::Operation;
use crate::row::{Allowed, Except, Forbids, Form, Masking, Number, Row, Use};
use formats::kind::Kind;
use operands::regs::Class;

// The first of each family of operations that differ only in funct codes; a row below gives its own.
const REGISTER: Form = Form {
    kind: Kind::R,
    opcode: 0x33,
    funct3: 0,
    funct: 0x00,
    mask: 0xfe00707f,
    bits: 0x33,
    d: Some(Use::Full(Class::Integer, Except::Nothing)),
    a: Some(Use::Full(Class::Integer, Except::Nothing)),
    b: Some(Use::Full(Class::Integer, Except::Nothing)),
    n: None,
    m: None,
    forbids: Forbids {
        sources: false,
        mask: false,
    },
};

const CONSTANT: Form = Form {
    kind: Kind::I,
    opcode: 0x13,
    funct3: 0,
    funct: 0x00,
    mask: 0x707f,
    bits: 0x13,
    d: Some(Use::Full(Class::Integer, Except::Nothing)),
    a: Some(Use::Full(Class::Integer, Except::Nothing)),
    b: None,
    n: Some(Number::Signed {
        width: 12,
        unit: 1,
        allowed: Allowed::All,
    }),
    m: None,
    forbids: Forbids {
        sources: false,
        mask: false,
    },
};

const LOAD: Form = Form {
    kind: Kind::I,
    opcode: 0x03,
    funct3: 0,
    funct: 0x00,
    mask: 0x707f,
    bits: 0x3,
    d: Some(Use::Full(Class::Integer, Except::Nothing)),
    a: Some(Use::Full(Class::Integer, Except::Nothing)),
    b: None,
    n: Some(Number::Signed {
        width: 12,
        unit: 1,
        allowed: Allowed::All,
    }),
    m: None,
    forbids: Forbids {
        sources: false,
        mask: false,
    },
};

const STORE: Form = Form {
    kind: Kind::S,
    opcode: 0x23,
    funct3: 0,
    funct: 0x00,
    mask: 0x707f,
    bits: 0x23,
    d: None,
    a: Some(Use::Full(Class::Integer, Except::Nothing)),
    b: Some(Use::Full(Class::Integer, Except::Nothing)),
    n: Some(Number::Signed {
        width: 12,
        unit: 1,
        allowed: Allowed::All,
    }),
    m: None,
    forbids: Forbids {
        sources: false,
        mask: false,
    },
};

const JUMP_REGISTER: Form = Form {
    kind: Kind::I,
    opcode: 0x67,
    funct3: 0,
    funct: 0x00,
    mask: 0x707f,
    bits: 0x67,
    d: Some(Use::Full(Class::Integer, Except::Nothing)),
    a: Some(Use::Full(Class::Integer, Except::Nothing)),
    b: None,
    n: Some(Number::Signed {
        width: 12,
        unit: 1,
        allowed: Allowed::All,
    }),
    m: None,
    forbids: Forbids {
        sources: false,
        mask: false,
    },
};

const UPPER: Form = Form {
    kind: Kind::U,
    opcode: 0x37,
    funct3: 0,
    funct: 0x00,
    mask: 0x7f,
    bits: 0x37,
    d: Some(Use::Full(Class::Integer, Except::Nothing)),
    a: None,
    b: None,
    n: Some(Number::Signed {
        width: 20,
        unit: 1,
        allowed: Allowed::All,
    }),
    m: None,
    forbids: Forbids {
        sources: false,
        mask: false,
    },
};

const JUMP: Form = Form {
    kind: Kind::J,
    opcode: 0x6f,
    funct3: 0,
    funct: 0x00,
    mask: 0x7f,
    bits: 0x6f,
    d: Some(Use::Full(Class::Integer, Except::Nothing)),
    a: None,
    b: None,
    n: Some(Number::Signed {
        width: 20,
        unit: 2,
        allowed: Allowed::All,
    }),
    m: None,
    forbids: Forbids {
        sources: false,
        mask: false,
    },
};

const BRANCH: Form = Form {
    kind: Kind::B,
    opcode: 0x63,
    funct3: 0,
    funct: 0x00,
    mask: 0x707f,
    bits: 0x63,
    d: None,
    a: Some(Use::Full(Class::Integer, Except::Nothing)),
    b: Some(Use::Full(Class::Integer, Except::Nothing)),
    n: Some(Number::Signed {
        width: 12,
        unit: 2,
        allowed: Allowed::All,
    }),
    m: None,
    forbids: Forbids {
        sources: false,
        mask: false,
    },
};

const VECTOR_VV: Form = Form {
    kind: Kind::V,
    opcode: 0x57,
    funct3: 0,
    funct: 0x00,
    mask: 0xfc00707f,
    bits: 0x57,
    d: Some(Use::Full(Class::Vector, Except::Nothing)),
    a: Some(Use::Full(Class::Vector, Except::Nothing)),
    b: Some(Use::Full(Class::Vector, Except::Nothing)),
    n: None,
    m: Some(Masking::Free),
    forbids: Forbids {
        sources: false,
        mask: true,
    },
};

const VECTOR_VX: Form = Form {
    kind: Kind::V,
    opcode: 0x57,
    funct3: 4,
    funct: 0x00,
    mask: 0xfc00707f,
    bits: 0x4057,
    d: Some(Use::Full(Class::Vector, Except::Nothing)),
    a: Some(Use::Full(Class::Integer, Except::Nothing)),
    b: Some(Use::Full(Class::Vector, Except::Nothing)),
    n: None,
    m: Some(Masking::Free),
    forbids: Forbids {
        sources: false,
        mask: true,
    },
};

const VECTOR_VF: Form = Form {
    kind: Kind::V,
    opcode: 0x57,
    funct3: 5,
    funct: 0x00,
    mask: 0xfc00707f,
    bits: 0x5057,
    d: Some(Use::Full(Class::Vector, Except::Nothing)),
    a: Some(Use::Full(Class::Float, Except::Nothing)),
    b: Some(Use::Full(Class::Vector, Except::Nothing)),
    n: None,
    m: Some(Masking::Free),
    forbids: Forbids {
        sources: false,
        mask: true,
    },
};

const VECTOR_VV_TO_MASK: Form = Form {
    kind: Kind::V,
    opcode: 0x57,
    funct3: 2,
    funct: 0x04,
    mask: 0xfc00707f,
    bits: 0x10002057,
    d: Some(Use::Full(Class::Vector, Except::Nothing)),
    a: Some(Use::Full(Class::Vector, Except::Nothing)),
    b: Some(Use::Full(Class::Vector, Except::Nothing)),
    n: None,
    m: Some(Masking::Free),
    forbids: Forbids {
        sources: false,
        mask: false,
    },
};

const VECTOR_VV_MERGE: Form = Form {
    kind: Kind::V,
    opcode: 0x57,
    funct3: 0,
    funct: 0x17,
    mask: 0xfc00707f,
    bits: 0x5c000057,
    d: Some(Use::Full(Class::Vector, Except::Nothing)),
    a: Some(Use::Full(Class::Vector, Except::Nothing)),
    b: Some(Use::Full(Class::Vector, Except::Nothing)),
    n: None,
    m: Some(Masking::Always),
    forbids: Forbids {
        sources: false,
        mask: true,
    },
};

const VECTOR_VX_MERGE: Form = Form {
    kind: Kind::V,
    opcode: 0x57,
    funct3: 4,
    funct: 0x17,
    mask: 0xfc00707f,
    bits: 0x5c004057,
    d: Some(Use::Full(Class::Vector, Except::Nothing)),
    a: Some(Use::Full(Class::Integer, Except::Nothing)),
    b: Some(Use::Full(Class::Vector, Except::Nothing)),
    n: None,
    m: Some(Masking::Always),
    forbids: Forbids {
        sources: false,
        mask: true,
    },
};

const VECTOR_VF_MERGE: Form = Form {
    kind: Kind::V,
    opcode: 0x57,
    funct3: 5,
    funct: 0x17,
    mask: 0xfc00707f,
    bits: 0x5c005057,
    d: Some(Use::Full(Class::Vector, Except::Nothing)),
    a: Some(Use::Full(Class::Float, Except::Nothing)),
    b: Some(Use::Full(Class::Vector, Except::Nothing)),
    n: None,
    m: Some(Masking::Always),
    forbids: Forbids {
        sources: false,
        mask: true,
    },
};

const VECTOR_VV_APART_UNMASKED: Form = Form {
    kind: Kind::V,
    opcode: 0x57,
    funct3: 2,
    funct: 0x17,
    mask: 0xfc00707f,
    bits: 0x5c002057,
    d: Some(Use::Full(Class::Vector, Except::Nothing)),
    a: Some(Use::Full(Class::Vector, Except::Nothing)),
    b: Some(Use::Full(Class::Vector, Except::Nothing)),
    n: None,
    m: Some(Masking::Never),
    forbids: Forbids {
        sources: true,
        mask: true,
    },
};

const VECTOR_VV_APART: Form = Form {
    kind: Kind::V,
    opcode: 0x57,
    funct3: 0,
    funct: 0x0c,
    mask: 0xfc00707f,
    bits: 0x30000057,
    d: Some(Use::Full(Class::Vector, Except::Nothing)),
    a: Some(Use::Full(Class::Vector, Except::Nothing)),
    b: Some(Use::Full(Class::Vector, Except::Nothing)),
    n: None,
    m: Some(Masking::Free),
    forbids: Forbids {
        sources: true,
        mask: true,
    },
};

const VECTOR_VX_APART: Form = Form {
    kind: Kind::V,
    opcode: 0x57,
    funct3: 4,
    funct: 0x0c,
    mask: 0xfc00707f,
    bits: 0x30004057,
    d: Some(Use::Full(Class::Vector, Except::Nothing)),
    a: Some(Use::Full(Class::Integer, Except::Nothing)),
    b: Some(Use::Full(Class::Vector, Except::Nothing)),
    n: None,
    m: Some(Masking::Free),
    forbids: Forbids {
        sources: true,
        mask: true,
    },
};

const VECTOR_VX_TO_MASK: Form = Form {
    kind: Kind::V,
    opcode: 0x57,
    funct3: 4,
    funct: 0x18,
    mask: 0xfc00707f,
    bits: 0x60004057,
    d: Some(Use::Full(Class::Vector, Except::Nothing)),
    a: Some(Use::Full(Class::Integer, Except::Nothing)),
    b: Some(Use::Full(Class::Vector, Except::Nothing)),
    n: None,
    m: Some(Masking::Free),
    forbids: Forbids {
        sources: false,
        mask: false,
    },
};

const VECTOR_VF_TO_MASK: Form = Form {
    kind: Kind::V,
    opcode: 0x57,
    funct3: 5,
    funct: 0x18,
    mask: 0xfc00707f,
    bits: 0x60005057,
    d: Some(Use::Full(Class::Vector, Except::Nothing)),
    a: Some(Use::Full(Class::Float, Except::Nothing)),
    b: Some(Use::Full(Class::Vector, Except::Nothing)),
    n: None,
    m: Some(Masking::Free),
    forbids: Forbids {
        sources: false,
        mask: false,
    },
};

const VECTOR_VV_TO_MASK_UNMASKED: Form = Form {
    kind: Kind::V,
    opcode: 0x57,
    funct3: 2,
    funct: 0x19,
    mask: 0xfc00707f,
    bits: 0x64002057,
    d: Some(Use::Full(Class::Vector, Except::Nothing)),
    a: Some(Use::Full(Class::Vector, Except::Nothing)),
    b: Some(Use::Full(Class::Vector, Except::Nothing)),
    n: None,
    m: Some(Masking::Never),
    forbids: Forbids {
        sources: false,
        mask: false,
    },
};

const VECTOR_VI: Form = Form {
    kind: Kind::VImm,
    opcode: 0x57,
    funct3: 3,
    funct: 0x00,
    mask: 0xfc00707f,
    bits: 0x3057,
    d: Some(Use::Full(Class::Vector, Except::Nothing)),
    a: None,
    b: Some(Use::Full(Class::Vector, Except::Nothing)),
    n: Some(Number::Signed {
        width: 5,
        unit: 1,
        allowed: Allowed::All,
    }),
    m: Some(Masking::Free),
    forbids: Forbids {
        sources: false,
        mask: true,
    },
};

const VECTOR_VU: Form = Form {
    kind: Kind::VImm,
    opcode: 0x57,
    funct3: 3,
    funct: 0x25,
    mask: 0xfc00707f,
    bits: 0x94003057,
    d: Some(Use::Full(Class::Vector, Except::Nothing)),
    a: None,
    b: Some(Use::Full(Class::Vector, Except::Nothing)),
    n: Some(Number::Unsigned {
        width: 5,
        unit: 1,
        allowed: Allowed::All,
    }),
    m: Some(Masking::Free),
    forbids: Forbids {
        sources: false,
        mask: true,
    },
};

const VECTOR_VI_MERGE: Form = Form {
    kind: Kind::VImm,
    opcode: 0x57,
    funct3: 3,
    funct: 0x17,
    mask: 0xfc00707f,
    bits: 0x5c003057,
    d: Some(Use::Full(Class::Vector, Except::Nothing)),
    a: None,
    b: Some(Use::Full(Class::Vector, Except::Nothing)),
    n: Some(Number::Signed {
        width: 5,
        unit: 1,
        allowed: Allowed::All,
    }),
    m: Some(Masking::Always),
    forbids: Forbids {
        sources: false,
        mask: true,
    },
};

const VECTOR_VU_APART: Form = Form {
    kind: Kind::VImm,
    opcode: 0x57,
    funct3: 3,
    funct: 0x0c,
    mask: 0xfc00707f,
    bits: 0x30003057,
    d: Some(Use::Full(Class::Vector, Except::Nothing)),
    a: None,
    b: Some(Use::Full(Class::Vector, Except::Nothing)),
    n: Some(Number::Unsigned {
        width: 5,
        unit: 1,
        allowed: Allowed::All,
    }),
    m: Some(Masking::Free),
    forbids: Forbids {
        sources: true,
        mask: true,
    },
};

const VECTOR_MOVE: Form = Form {
    kind: Kind::VImm,
    opcode: 0x57,
    funct3: 3,
    funct: 0x27,
    mask: 0xfc00707f,
    bits: 0x9c003057,
    d: Some(Use::Full(Class::Vector, Except::Nothing)),
    a: None,
    b: Some(Use::Full(Class::Vector, Except::Nothing)),
    n: Some(Number::Unsigned {
        width: 5,
        unit: 1,
        allowed: Allowed::GroupSize,
    }),
    m: Some(Masking::Never),
    forbids: Forbids {
        sources: false,
        mask: true,
    },
};

const VECTOR_VI_TO_MASK: Form = Form {
    kind: Kind::VImm,
    opcode: 0x57,
    funct3: 3,
    funct: 0x18,
    mask: 0xfc00707f,
    bits: 0x60003057,
    d: Some(Use::Full(Class::Vector, Except::Nothing)),
    a: None,
    b: Some(Use::Full(Class::Vector, Except::Nothing)),
    n: Some(Number::Signed {
        width: 5,
        unit: 1,
        allowed: Allowed::All,
    }),
    m: Some(Masking::Free),
    forbids: Forbids {
        sources: false,
        mask: false,
    },
};

const VECTOR_LOAD: Form = Form {
    kind: Kind::VMem,
    opcode: 0x07,
    funct3: 0,
    funct: 0x00,
    mask: 0xfdf0707f,
    bits: 0x7,
    d: Some(Use::Full(Class::Vector, Except::Nothing)),
    a: Some(Use::Full(Class::Integer, Except::Nothing)),
    b: None,
    n: None,
    m: Some(Masking::Free),
    forbids: Forbids {
        sources: false,
        mask: true,
    },
};

const VECTOR_STORE: Form = Form {
    kind: Kind::VMem,
    opcode: 0x27,
    funct3: 0,
    funct: 0x00,
    mask: 0xfdf0707f,
    bits: 0x27,
    d: Some(Use::Full(Class::Vector, Except::Nothing)),
    a: Some(Use::Full(Class::Integer, Except::Nothing)),
    b: None,
    n: None,
    m: Some(Masking::Free),
    forbids: Forbids {
        sources: false,
        mask: false,
    },
};

const C_MOVE: Form = Form {
    kind: Kind::Cr,
    opcode: 0x02,
    funct3: 0,
    funct: 0x08,
    mask: 0xf003,
    bits: 0x8002,
    d: Some(Use::Full(Class::Integer, Except::Zero)),
    a: None,
    b: Some(Use::Full(Class::Integer, Except::Zero)),
    n: None,
    m: None,
    forbids: Forbids {
        sources: false,
        mask: false,
    },
};

const C_JUMP_REGISTER: Form = Form {
    kind: Kind::Cr2,
    opcode: 0x02,
    funct3: 0,
    funct: 0x08,
    mask: 0xf07f,
    bits: 0x8002,
    d: None,
    a: Some(Use::Full(Class::Integer, Except::Zero)),
    b: None,
    n: None,
    m: None,
    forbids: Forbids {
        sources: false,
        mask: false,
    },
};

const CEBREAK: Form = Form {
    kind: Kind::CrBare,
    opcode: 0x02,
    funct3: 0,
    funct: 0x09,
    mask: 0xffff,
    bits: 0x9002,
    d: None,
    a: None,
    b: None,
    n: None,
    m: None,
    forbids: Forbids {
        sources: false,
        mask: false,
    },
};

const C_ARITHMETIC: Form = Form {
    kind: Kind::Ca,
    opcode: 0x01,
    funct3: 3,
    funct: 0x23,
    mask: 0xfc63,
    bits: 0x8c61,
    d: Some(Use::Short(Class::Integer)),
    a: None,
    b: Some(Use::Short(Class::Integer)),
    n: None,
    m: None,
    forbids: Forbids {
        sources: false,
        mask: false,
    },
};

const CJ: Form = Form {
    kind: Kind::Cj,
    opcode: 0x01,
    funct3: 5,
    funct: 0x00,
    mask: 0xe003,
    bits: 0xa001,
    d: None,
    a: None,
    b: None,
    n: Some(Number::Signed {
        width: 11,
        unit: 2,
        allowed: Allowed::All,
    }),
    m: None,
    forbids: Forbids {
        sources: false,
        mask: false,
    },
};

const CADDI: Form = Form {
    kind: Kind::Ci,
    opcode: 0x01,
    funct3: 0,
    funct: 0x00,
    mask: 0xe003,
    bits: 0x1,
    d: Some(Use::Full(Class::Integer, Except::Zero)),
    a: None,
    b: None,
    n: Some(Number::Signed {
        width: 6,
        unit: 1,
        allowed: Allowed::NonZero,
    }),
    m: None,
    forbids: Forbids {
        sources: false,
        mask: false,
    },
};

const CSLLI: Form = Form {
    kind: Kind::Ci,
    opcode: 0x02,
    funct3: 0,
    funct: 0x00,
    mask: 0xe003,
    bits: 0x2,
    d: Some(Use::Full(Class::Integer, Except::Zero)),
    a: None,
    b: None,
    n: Some(Number::Unsigned {
        width: 6,
        unit: 1,
        allowed: Allowed::NonZero,
    }),
    m: None,
    forbids: Forbids {
        sources: false,
        mask: false,
    },
};

const CADDIW: Form = Form {
    kind: Kind::Ci,
    opcode: 0x01,
    funct3: 1,
    funct: 0x00,
    mask: 0xe003,
    bits: 0x2001,
    d: Some(Use::Full(Class::Integer, Except::Zero)),
    a: None,
    b: None,
    n: Some(Number::Signed {
        width: 6,
        unit: 1,
        allowed: Allowed::All,
    }),
    m: None,
    forbids: Forbids {
        sources: false,
        mask: false,
    },
};

const CFLDSP: Form = Form {
    kind: Kind::CiLdsp,
    opcode: 0x02,
    funct3: 1,
    funct: 0x00,
    mask: 0xe003,
    bits: 0x2002,
    d: Some(Use::Full(Class::Float, Except::Nothing)),
    a: None,
    b: None,
    n: Some(Number::Unsigned {
        width: 6,
        unit: 8,
        allowed: Allowed::All,
    }),
    m: None,
    forbids: Forbids {
        sources: false,
        mask: false,
    },
};

const CLWSP: Form = Form {
    kind: Kind::CiLwsp,
    opcode: 0x02,
    funct3: 2,
    funct: 0x00,
    mask: 0xe003,
    bits: 0x4002,
    d: Some(Use::Full(Class::Integer, Except::Zero)),
    a: None,
    b: None,
    n: Some(Number::Unsigned {
        width: 6,
        unit: 4,
        allowed: Allowed::All,
    }),
    m: None,
    forbids: Forbids {
        sources: false,
        mask: false,
    },
};

const CADDI16SP: Form = Form {
    kind: Kind::CiAddi16sp,
    opcode: 0x01,
    funct3: 3,
    funct: 0x00,
    mask: 0xef83,
    bits: 0x6101,
    d: None,
    a: None,
    b: None,
    n: Some(Number::Signed {
        width: 6,
        unit: 16,
        allowed: Allowed::NonZero,
    }),
    m: None,
    forbids: Forbids {
        sources: false,
        mask: false,
    },
};

const CLUI: Form = Form {
    kind: Kind::Ci,
    opcode: 0x01,
    funct3: 3,
    funct: 0x00,
    mask: 0xe003,
    bits: 0x6001,
    d: Some(Use::Full(Class::Integer, Except::ZeroAndTwo)),
    a: None,
    b: None,
    n: Some(Number::Signed {
        width: 6,
        unit: 1,
        allowed: Allowed::NonZero,
    }),
    m: None,
    forbids: Forbids {
        sources: false,
        mask: false,
    },
};

const CLDSP: Form = Form {
    kind: Kind::CiLdsp,
    opcode: 0x02,
    funct3: 3,
    funct: 0x00,
    mask: 0xe003,
    bits: 0x6002,
    d: Some(Use::Full(Class::Integer, Except::Zero)),
    a: None,
    b: None,
    n: Some(Number::Unsigned {
        width: 6,
        unit: 8,
        allowed: Allowed::All,
    }),
    m: None,
    forbids: Forbids {
        sources: false,
        mask: false,
    },
};

const CADDI4SPN: Form = Form {
    kind: Kind::Ciw,
    opcode: 0x00,
    funct3: 0,
    funct: 0x00,
    mask: 0xe003,
    bits: 0x0,
    d: Some(Use::Short(Class::Integer)),
    a: None,
    b: None,
    n: Some(Number::Unsigned {
        width: 8,
        unit: 4,
        allowed: Allowed::NonZero,
    }),
    m: None,
    forbids: Forbids {
        sources: false,
        mask: false,
    },
};

const CSRLI: Form = Form {
    kind: Kind::Cb,
    opcode: 0x01,
    funct3: 4,
    funct: 0x00,
    mask: 0xec03,
    bits: 0x8001,
    d: Some(Use::Short(Class::Integer)),
    a: None,
    b: None,
    n: Some(Number::Unsigned {
        width: 6,
        unit: 1,
        allowed: Allowed::NonZero,
    }),
    m: None,
    forbids: Forbids {
        sources: false,
        mask: false,
    },
};

const CANDI: Form = Form {
    kind: Kind::Cb,
    opcode: 0x01,
    funct3: 4,
    funct: 0x02,
    mask: 0xec03,
    bits: 0x8801,
    d: Some(Use::Short(Class::Integer)),
    a: None,
    b: None,
    n: Some(Number::Signed {
        width: 6,
        unit: 1,
        allowed: Allowed::All,
    }),
    m: None,
    forbids: Forbids {
        sources: false,
        mask: false,
    },
};

const CFSDSP: Form = Form {
    kind: Kind::CssDouble,
    opcode: 0x02,
    funct3: 5,
    funct: 0x00,
    mask: 0xe003,
    bits: 0xa002,
    d: None,
    a: None,
    b: Some(Use::Full(Class::Float, Except::Nothing)),
    n: Some(Number::Unsigned {
        width: 6,
        unit: 8,
        allowed: Allowed::All,
    }),
    m: None,
    forbids: Forbids {
        sources: false,
        mask: false,
    },
};

const CSWSP: Form = Form {
    kind: Kind::CssWord,
    opcode: 0x02,
    funct3: 6,
    funct: 0x00,
    mask: 0xe003,
    bits: 0xc002,
    d: None,
    a: None,
    b: Some(Use::Full(Class::Integer, Except::Nothing)),
    n: Some(Number::Unsigned {
        width: 6,
        unit: 4,
        allowed: Allowed::All,
    }),
    m: None,
    forbids: Forbids {
        sources: false,
        mask: false,
    },
};

const CSDSP: Form = Form {
    kind: Kind::CssDouble,
    opcode: 0x02,
    funct3: 7,
    funct: 0x00,
    mask: 0xe003,
    bits: 0xe002,
    d: None,
    a: None,
    b: Some(Use::Full(Class::Integer, Except::Nothing)),
    n: Some(Number::Unsigned {
        width: 6,
        unit: 8,
        allowed: Allowed::All,
    }),
    m: None,
    forbids: Forbids {
        sources: false,
        mask: false,
    },
};

const CFSD: Form = Form {
    kind: Kind::CsDouble,
    opcode: 0x00,
    funct3: 5,
    funct: 0x00,
    mask: 0xe003,
    bits: 0xa000,
    d: None,
    a: Some(Use::Short(Class::Integer)),
    b: Some(Use::Short(Class::Float)),
    n: Some(Number::Unsigned {
        width: 5,
        unit: 8,
        allowed: Allowed::All,
    }),
    m: None,
    forbids: Forbids {
        sources: false,
        mask: false,
    },
};

const CSW: Form = Form {
    kind: Kind::CsWord,
    opcode: 0x00,
    funct3: 6,
    funct: 0x00,
    mask: 0xe003,
    bits: 0xc000,
    d: None,
    a: Some(Use::Short(Class::Integer)),
    b: Some(Use::Short(Class::Integer)),
    n: Some(Number::Unsigned {
        width: 5,
        unit: 4,
        allowed: Allowed::All,
    }),
    m: None,
    forbids: Forbids {
        sources: false,
        mask: false,
    },
};

const CSD: Form = Form {
    kind: Kind::CsDouble,
    opcode: 0x00,
    funct3: 7,
    funct: 0x00,
    mask: 0xe003,
    bits: 0xe000,
    d: None,
    a: Some(Use::Short(Class::Integer)),
    b: Some(Use::Short(Class::Integer)),
    n: Some(Number::Unsigned {
        width: 5,
        unit: 8,
        allowed: Allowed::All,
    }),
    m: None,
    forbids: Forbids {
        sources: false,
        mask: false,
    },
};

const CFLD: Form = Form {
    kind: Kind::ClDouble,
    opcode: 0x00,
    funct3: 1,
    funct: 0x00,
    mask: 0xe003,
    bits: 0x2000,
    d: Some(Use::Short(Class::Float)),
    a: Some(Use::Short(Class::Integer)),
    b: None,
    n: Some(Number::Unsigned {
        width: 5,
        unit: 8,
        allowed: Allowed::All,
    }),
    m: None,
    forbids: Forbids {
        sources: false,
        mask: false,
    },
};

const CLW: Form = Form {
    kind: Kind::ClWord,
    opcode: 0x00,
    funct3: 2,
    funct: 0x00,
    mask: 0xe003,
    bits: 0x4000,
    d: Some(Use::Short(Class::Integer)),
    a: Some(Use::Short(Class::Integer)),
    b: None,
    n: Some(Number::Unsigned {
        width: 5,
        unit: 4,
        allowed: Allowed::All,
    }),
    m: None,
    forbids: Forbids {
        sources: false,
        mask: false,
    },
};

const CLD: Form = Form {
    kind: Kind::ClDouble,
    opcode: 0x00,
    funct3: 3,
    funct: 0x00,
    mask: 0xe003,
    bits: 0x6000,
    d: Some(Use::Short(Class::Integer)),
    a: Some(Use::Short(Class::Integer)),
    b: None,
    n: Some(Number::Unsigned {
        width: 5,
        unit: 8,
        allowed: Allowed::All,
    }),
    m: None,
    forbids: Forbids {
        sources: false,
        mask: false,
    },
};

// How many there are.
pub const COUNT: usize = 233;

const TABLE: [Row; COUNT] = [
    Row {
        name: "add",
        form: REGISTER,
    },
    Row {
        name: "sub",
        form: Form {
            funct: 0x20,
            bits: 0x40000033,
            ..REGISTER
        },
    },
    Row {
        name: "sll",
        form: Form {
            funct3: 1,
            bits: 0x1033,
            ..REGISTER
        },
    },
    Row {
        name: "slt",
        form: Form {
            funct3: 2,
            bits: 0x2033,
            ..REGISTER
        },
    },
    Row {
        name: "sltu",
        form: Form {
            funct3: 3,
            bits: 0x3033,
            ..REGISTER
        },
    },
    Row {
        name: "xor",
        form: Form {
            funct3: 4,
            bits: 0x4033,
            ..REGISTER
        },
    },
    Row {
        name: "srl",
        form: Form {
            funct3: 5,
            bits: 0x5033,
            ..REGISTER
        },
    },
    Row {
        name: "sra",
        form: Form {
            funct3: 5,
            funct: 0x20,
            bits: 0x40005033,
            ..REGISTER
        },
    },
    Row {
        name: "or",
        form: Form {
            funct3: 6,
            bits: 0x6033,
            ..REGISTER
        },
    },
    Row {
        name: "and",
        form: Form {
            funct3: 7,
            bits: 0x7033,
            ..REGISTER
        },
    },
    Row {
        name: "addi",
        form: CONSTANT,
    },
    Row {
        name: "slti",
        form: Form {
            funct3: 2,
            bits: 0x2013,
            ..CONSTANT
        },
    },
    Row {
        name: "sltiu",
        form: Form {
            funct3: 3,
            bits: 0x3013,
            ..CONSTANT
        },
    },
    Row {
        name: "xori",
        form: Form {
            funct3: 4,
            bits: 0x4013,
            ..CONSTANT
        },
    },
    Row {
        name: "ori",
        form: Form {
            funct3: 6,
            bits: 0x6013,
            ..CONSTANT
        },
    },
    Row {
        name: "andi",
        form: Form {
            funct3: 7,
            bits: 0x7013,
            ..CONSTANT
        },
    },
    Row {
        name: "lb",
        form: LOAD,
    },
    Row {
        name: "lh",
        form: Form {
            funct3: 1,
            bits: 0x1003,
            ..LOAD
        },
    },
    Row {
        name: "lw",
        form: Form {
            funct3: 2,
            bits: 0x2003,
            ..LOAD
        },
    },
    Row {
        name: "ld",
        form: Form {
            funct3: 3,
            bits: 0x3003,
            ..LOAD
        },
    },
    Row {
        name: "lbu",
        form: Form {
            funct3: 4,
            bits: 0x4003,
            ..LOAD
        },
    },
    Row {
        name: "lhu",
        form: Form {
            funct3: 5,
            bits: 0x5003,
            ..LOAD
        },
    },
    Row {
        name: "lwu",
        form: Form {
            funct3: 6,
            bits: 0x6003,
            ..LOAD
        },
    },
    Row {
        name: "sb",
        form: STORE,
    },
    Row {
        name: "sh",
        form: Form {
            funct3: 1,
            bits: 0x1023,
            ..STORE
        },
    },
    Row {
        name: "sw",
        form: Form {
            funct3: 2,
            bits: 0x2023,
            ..STORE
        },
    },
    Row {
        name: "sd",
        form: Form {
            funct3: 3,
            bits: 0x3023,
            ..STORE
        },
    },
    Row {
        name: "jalr",
        form: JUMP_REGISTER,
    },
    Row {
        name: "lui",
        form: UPPER,
    },
    Row {
        name: "jal",
        form: JUMP,
    },
    Row {
        name: "beq",
        form: BRANCH,
    },
    Row {
        name: "bne",
        form: Form {
            funct3: 1,
            bits: 0x1063,
            ..BRANCH
        },
    },
    Row {
        name: "blt",
        form: Form {
            funct3: 4,
            bits: 0x4063,
            ..BRANCH
        },
    },
    Row {
        name: "bge",
        form: Form {
            funct3: 5,
            bits: 0x5063,
            ..BRANCH
        },
    },
    Row {
        name: "bltu",
        form: Form {
            funct3: 6,
            bits: 0x6063,
            ..BRANCH
        },
    },
    Row {
        name: "bgeu",
        form: Form {
            funct3: 7,
            bits: 0x7063,
            ..BRANCH
        },
    },
    Row {
        name: "VaddVV",
        form: VECTOR_VV,
    },
    Row {
        name: "VaddVX",
        form: VECTOR_VX,
    },
    Row {
        name: "VfaddVV",
        form: Form {
            funct3: 1,
            bits: 0x1057,
            ..VECTOR_VV
        },
    },
    Row {
        name: "VfaddVF",
        form: VECTOR_VF,
    },
    Row {
        name: "VsubVV",
        form: Form {
            funct: 0x02,
            bits: 0x8000057,
            ..VECTOR_VV
        },
    },
    Row {
        name: "VsubVX",
        form: Form {
            funct: 0x02,
            bits: 0x8004057,
            ..VECTOR_VX
        },
    },
    Row {
        name: "VfsubVV",
        form: Form {
            funct3: 1,
            funct: 0x02,
            bits: 0x8001057,
            ..VECTOR_VV
        },
    },
    Row {
        name: "VfsubVF",
        form: Form {
            funct: 0x02,
            bits: 0x8005057,
            ..VECTOR_VF
        },
    },
    Row {
        name: "VrsubVX",
        form: Form {
            funct: 0x03,
            bits: 0xc004057,
            ..VECTOR_VX
        },
    },
    Row {
        name: "VmulVV",
        form: Form {
            funct3: 2,
            funct: 0x25,
            bits: 0x94002057,
            ..VECTOR_VV
        },
    },
    Row {
        name: "VmulVX",
        form: Form {
            funct3: 6,
            funct: 0x25,
            bits: 0x94006057,
            ..VECTOR_VX
        },
    },
    Row {
        name: "VmulhVV",
        form: Form {
            funct3: 2,
            funct: 0x27,
            bits: 0x9c002057,
            ..VECTOR_VV
        },
    },
    Row {
        name: "VmulhVX",
        form: Form {
            funct3: 6,
            funct: 0x27,
            bits: 0x9c006057,
            ..VECTOR_VX
        },
    },
    Row {
        name: "VmulhuVV",
        form: Form {
            funct3: 2,
            funct: 0x24,
            bits: 0x90002057,
            ..VECTOR_VV
        },
    },
    Row {
        name: "VmulhuVX",
        form: Form {
            funct3: 6,
            funct: 0x24,
            bits: 0x90006057,
            ..VECTOR_VX
        },
    },
    Row {
        name: "VfmulVV",
        form: Form {
            funct3: 1,
            funct: 0x24,
            bits: 0x90001057,
            ..VECTOR_VV
        },
    },
    Row {
        name: "VfmulVF",
        form: Form {
            funct: 0x24,
            bits: 0x90005057,
            ..VECTOR_VF
        },
    },
    Row {
        name: "VsmulVV",
        form: Form {
            funct: 0x27,
            bits: 0x9c000057,
            ..VECTOR_VV
        },
    },
    Row {
        name: "VsmulVX",
        form: Form {
            funct: 0x27,
            bits: 0x9c004057,
            ..VECTOR_VX
        },
    },
    Row {
        name: "VsllVV",
        form: Form {
            funct: 0x25,
            bits: 0x94000057,
            ..VECTOR_VV
        },
    },
    Row {
        name: "VsllVX",
        form: Form {
            funct: 0x25,
            bits: 0x94004057,
            ..VECTOR_VX
        },
    },
    Row {
        name: "VsrlVV",
        form: Form {
            funct: 0x28,
            bits: 0xa0000057,
            ..VECTOR_VV
        },
    },
    Row {
        name: "VsrlVX",
        form: Form {
            funct: 0x28,
            bits: 0xa0004057,
            ..VECTOR_VX
        },
    },
    Row {
        name: "VsraVV",
        form: Form {
            funct: 0x29,
            bits: 0xa4000057,
            ..VECTOR_VV
        },
    },
    Row {
        name: "VsraVX",
        form: Form {
            funct: 0x29,
            bits: 0xa4004057,
            ..VECTOR_VX
        },
    },
    Row {
        name: "VandVV",
        form: Form {
            funct: 0x09,
            bits: 0x24000057,
            ..VECTOR_VV
        },
    },
    Row {
        name: "VandVX",
        form: Form {
            funct: 0x09,
            bits: 0x24004057,
            ..VECTOR_VX
        },
    },
    Row {
        name: "VorVV",
        form: Form {
            funct: 0x0a,
            bits: 0x28000057,
            ..VECTOR_VV
        },
    },
    Row {
        name: "VorVX",
        form: Form {
            funct: 0x0a,
            bits: 0x28004057,
            ..VECTOR_VX
        },
    },
    Row {
        name: "VxorVV",
        form: Form {
            funct: 0x0b,
            bits: 0x2c000057,
            ..VECTOR_VV
        },
    },
    Row {
        name: "VxorVX",
        form: Form {
            funct: 0x0b,
            bits: 0x2c004057,
            ..VECTOR_VX
        },
    },
    Row {
        name: "VminuVV",
        form: Form {
            funct: 0x04,
            bits: 0x10000057,
            ..VECTOR_VV
        },
    },
    Row {
        name: "VminuVX",
        form: Form {
            funct: 0x04,
            bits: 0x10004057,
            ..VECTOR_VX
        },
    },
    Row {
        name: "VredminuVS",
        form: VECTOR_VV_TO_MASK,
    },
    Row {
        name: "VminVV",
        form: Form {
            funct: 0x05,
            bits: 0x14000057,
            ..VECTOR_VV
        },
    },
    Row {
        name: "VminVX",
        form: Form {
            funct: 0x05,
            bits: 0x14004057,
            ..VECTOR_VX
        },
    },
    Row {
        name: "VmaxuVV",
        form: Form {
            funct: 0x06,
            bits: 0x18000057,
            ..VECTOR_VV
        },
    },
    Row {
        name: "VmaxuVX",
        form: Form {
            funct: 0x06,
            bits: 0x18004057,
            ..VECTOR_VX
        },
    },
    Row {
        name: "VredmaxuVS",
        form: Form {
            funct: 0x06,
            bits: 0x18002057,
            ..VECTOR_VV_TO_MASK
        },
    },
    Row {
        name: "VmaxVV",
        form: Form {
            funct: 0x07,
            bits: 0x1c000057,
            ..VECTOR_VV
        },
    },
    Row {
        name: "VmaxVX",
        form: Form {
            funct: 0x07,
            bits: 0x1c004057,
            ..VECTOR_VX
        },
    },
    Row {
        name: "VslidedownVX",
        form: Form {
            funct: 0x0f,
            bits: 0x3c004057,
            ..VECTOR_VX
        },
    },
    Row {
        name: "VfrsubVF",
        form: Form {
            funct: 0x27,
            bits: 0x9c005057,
            ..VECTOR_VF
        },
    },
    Row {
        name: "VmergeVVM",
        form: VECTOR_VV_MERGE,
    },
    Row {
        name: "VmergeVXM",
        form: VECTOR_VX_MERGE,
    },
    Row {
        name: "VfmergeVFM",
        form: VECTOR_VF_MERGE,
    },
    Row {
        name: "VcompressVM",
        form: VECTOR_VV_APART_UNMASKED,
    },
    Row {
        name: "VfdivVV",
        form: Form {
            funct3: 1,
            funct: 0x20,
            bits: 0x80001057,
            ..VECTOR_VV
        },
    },
    Row {
        name: "VfdivVF",
        form: Form {
            funct: 0x20,
            bits: 0x80005057,
            ..VECTOR_VF
        },
    },
    Row {
        name: "VsadduVV",
        form: Form {
            funct: 0x20,
            bits: 0x80000057,
            ..VECTOR_VV
        },
    },
    Row {
        name: "VsadduVX",
        form: Form {
            funct: 0x20,
            bits: 0x80004057,
            ..VECTOR_VX
        },
    },
    Row {
        name: "VfrdivVF",
        form: Form {
            funct: 0x21,
            bits: 0x84005057,
            ..VECTOR_VF
        },
    },
    Row {
        name: "VsaddVV",
        form: Form {
            funct: 0x21,
            bits: 0x84000057,
            ..VECTOR_VV
        },
    },
    Row {
        name: "VsaddVX",
        form: Form {
            funct: 0x21,
            bits: 0x84004057,
            ..VECTOR_VX
        },
    },
    Row {
        name: "VfminVV",
        form: Form {
            funct3: 1,
            funct: 0x04,
            bits: 0x10001057,
            ..VECTOR_VV
        },
    },
    Row {
        name: "VfmaxVV",
        form: Form {
            funct3: 1,
            funct: 0x06,
            bits: 0x18001057,
            ..VECTOR_VV
        },
    },
    Row {
        name: "VssubuVV",
        form: Form {
            funct: 0x22,
            bits: 0x88000057,
            ..VECTOR_VV
        },
    },
    Row {
        name: "VssubuVX",
        form: Form {
            funct: 0x22,
            bits: 0x88004057,
            ..VECTOR_VX
        },
    },
    Row {
        name: "VssubVV",
        form: Form {
            funct: 0x23,
            bits: 0x8c000057,
            ..VECTOR_VV
        },
    },
    Row {
        name: "VssubVX",
        form: Form {
            funct: 0x23,
            bits: 0x8c004057,
            ..VECTOR_VX
        },
    },
    Row {
        name: "VfsgnjVV",
        form: Form {
            funct3: 1,
            funct: 0x08,
            bits: 0x20001057,
            ..VECTOR_VV
        },
    },
    Row {
        name: "VfsgnjVF",
        form: Form {
            funct: 0x08,
            bits: 0x20005057,
            ..VECTOR_VF
        },
    },
    Row {
        name: "VfsgnjnVV",
        form: Form {
            funct3: 1,
            funct: 0x09,
            bits: 0x24001057,
            ..VECTOR_VV
        },
    },
    Row {
        name: "VfsgnjxVV",
        form: Form {
            funct3: 1,
            funct: 0x0a,
            bits: 0x28001057,
            ..VECTOR_VV
        },
    },
    Row {
        name: "VrgatherVV",
        form: VECTOR_VV_APART,
    },
    Row {
        name: "VrgatherVX",
        form: VECTOR_VX_APART,
    },
    Row {
        name: "VwadduVV",
        form: Form {
            funct3: 2,
            funct: 0x30,
            bits: 0xc0002057,
            ..VECTOR_VV_APART
        },
    },
    Row {
        name: "VwadduVX",
        form: Form {
            funct3: 6,
            funct: 0x30,
            bits: 0xc0006057,
            ..VECTOR_VX_APART
        },
    },
    Row {
        name: "VwaddVV",
        form: Form {
            funct3: 2,
            funct: 0x31,
            bits: 0xc4002057,
            ..VECTOR_VV_APART
        },
    },
    Row {
        name: "VwaddVX",
        form: Form {
            funct3: 6,
            funct: 0x31,
            bits: 0xc4006057,
            ..VECTOR_VX_APART
        },
    },
    Row {
        name: "VwsubuVV",
        form: Form {
            funct3: 2,
            funct: 0x32,
            bits: 0xc8002057,
            ..VECTOR_VV_APART
        },
    },
    Row {
        name: "VwsubuVX",
        form: Form {
            funct3: 6,
            funct: 0x32,
            bits: 0xc8006057,
            ..VECTOR_VX_APART
        },
    },
    Row {
        name: "VwsubVV",
        form: Form {
            funct3: 2,
            funct: 0x33,
            bits: 0xcc002057,
            ..VECTOR_VV_APART
        },
    },
    Row {
        name: "VwsubVX",
        form: Form {
            funct3: 6,
            funct: 0x33,
            bits: 0xcc006057,
            ..VECTOR_VX_APART
        },
    },
    Row {
        name: "VwadduWV",
        form: Form {
            funct3: 2,
            funct: 0x34,
            bits: 0xd0002057,
            ..VECTOR_VV_APART
        },
    },
    Row {
        name: "VwadduWX",
        form: Form {
            funct3: 6,
            funct: 0x34,
            bits: 0xd0006057,
            ..VECTOR_VX_APART
        },
    },
    Row {
        name: "VwaddWV",
        form: Form {
            funct3: 2,
            funct: 0x35,
            bits: 0xd4002057,
            ..VECTOR_VV_APART
        },
    },
    Row {
        name: "VwaddWX",
        form: Form {
            funct3: 6,
            funct: 0x35,
            bits: 0xd4006057,
            ..VECTOR_VX_APART
        },
    },
    Row {
        name: "VwsubuWV",
        form: Form {
            funct3: 2,
            funct: 0x36,
            bits: 0xd8002057,
            ..VECTOR_VV_APART
        },
    },
    Row {
        name: "VwsubuWX",
        form: Form {
            funct3: 6,
            funct: 0x36,
            bits: 0xd8006057,
            ..VECTOR_VX_APART
        },
    },
    Row {
        name: "VwsubWV",
        form: Form {
            funct3: 2,
            funct: 0x37,
            bits: 0xdc002057,
            ..VECTOR_VV_APART
        },
    },
    Row {
        name: "VwsubWX",
        form: Form {
            funct3: 6,
            funct: 0x37,
            bits: 0xdc006057,
            ..VECTOR_VX_APART
        },
    },
    Row {
        name: "VmseqVV",
        form: Form {
            funct3: 0,
            funct: 0x18,
            bits: 0x60000057,
            ..VECTOR_VV_TO_MASK
        },
    },
    Row {
        name: "VmseqVX",
        form: VECTOR_VX_TO_MASK,
    },
    Row {
        name: "VmfeqVV",
        form: Form {
            funct3: 1,
            funct: 0x18,
            bits: 0x60001057,
            ..VECTOR_VV_TO_MASK
        },
    },
    Row {
        name: "VmfeqVF",
        form: VECTOR_VF_TO_MASK,
    },
    Row {
        name: "VmsneVV",
        form: Form {
            funct3: 0,
            funct: 0x19,
            bits: 0x64000057,
            ..VECTOR_VV_TO_MASK
        },
    },
    Row {
        name: "VmsneVX",
        form: Form {
            funct: 0x19,
            bits: 0x64004057,
            ..VECTOR_VX_TO_MASK
        },
    },
    Row {
        name: "VmfleVV",
        form: Form {
            funct3: 1,
            funct: 0x19,
            bits: 0x64001057,
            ..VECTOR_VV_TO_MASK
        },
    },
    Row {
        name: "VmfleVF",
        form: Form {
            funct: 0x19,
            bits: 0x64005057,
            ..VECTOR_VF_TO_MASK
        },
    },
    Row {
        name: "VmandMM",
        form: VECTOR_VV_TO_MASK_UNMASKED,
    },
    Row {
        name: "VmsltuVV",
        form: Form {
            funct3: 0,
            funct: 0x1a,
            bits: 0x68000057,
            ..VECTOR_VV_TO_MASK
        },
    },
    Row {
        name: "VmsltuVX",
        form: Form {
            funct: 0x1a,
            bits: 0x68004057,
            ..VECTOR_VX_TO_MASK
        },
    },
    Row {
        name: "VmorMM",
        form: Form {
            funct: 0x1a,
            bits: 0x68002057,
            ..VECTOR_VV_TO_MASK_UNMASKED
        },
    },
    Row {
        name: "VmsltVV",
        form: Form {
            funct3: 0,
            funct: 0x1b,
            bits: 0x6c000057,
            ..VECTOR_VV_TO_MASK
        },
    },
    Row {
        name: "VmsltVX",
        form: Form {
            funct: 0x1b,
            bits: 0x6c004057,
            ..VECTOR_VX_TO_MASK
        },
    },
    Row {
        name: "VmfltVV",
        form: Form {
            funct3: 1,
            funct: 0x1b,
            bits: 0x6c001057,
            ..VECTOR_VV_TO_MASK
        },
    },
    Row {
        name: "VmfltVF",
        form: Form {
            funct: 0x1b,
            bits: 0x6c005057,
            ..VECTOR_VF_TO_MASK
        },
    },
    Row {
        name: "VmsleuVV",
        form: Form {
            funct3: 0,
            funct: 0x1c,
            bits: 0x70000057,
            ..VECTOR_VV_TO_MASK
        },
    },
    Row {
        name: "VmsleuVX",
        form: Form {
            funct: 0x1c,
            bits: 0x70004057,
            ..VECTOR_VX_TO_MASK
        },
    },
    Row {
        name: "VmfneVV",
        form: Form {
            funct3: 1,
            funct: 0x1c,
            bits: 0x70001057,
            ..VECTOR_VV_TO_MASK
        },
    },
    Row {
        name: "VmfneVF",
        form: Form {
            funct: 0x1c,
            bits: 0x70005057,
            ..VECTOR_VF_TO_MASK
        },
    },
    Row {
        name: "VmsleVV",
        form: Form {
            funct3: 0,
            funct: 0x1d,
            bits: 0x74000057,
            ..VECTOR_VV_TO_MASK
        },
    },
    Row {
        name: "VmsleVX",
        form: Form {
            funct: 0x1d,
            bits: 0x74004057,
            ..VECTOR_VX_TO_MASK
        },
    },
    Row {
        name: "VmfgtVF",
        form: Form {
            funct: 0x1d,
            bits: 0x74005057,
            ..VECTOR_VF_TO_MASK
        },
    },
    Row {
        name: "VmnandMM",
        form: Form {
            funct: 0x1d,
            bits: 0x74002057,
            ..VECTOR_VV_TO_MASK_UNMASKED
        },
    },
    Row {
        name: "VmsgtuVX",
        form: Form {
            funct: 0x1e,
            bits: 0x78004057,
            ..VECTOR_VX_TO_MASK
        },
    },
    Row {
        name: "VmnorMM",
        form: Form {
            funct: 0x1e,
            bits: 0x78002057,
            ..VECTOR_VV_TO_MASK_UNMASKED
        },
    },
    Row {
        name: "VmsgtVX",
        form: Form {
            funct: 0x1f,
            bits: 0x7c004057,
            ..VECTOR_VX_TO_MASK
        },
    },
    Row {
        name: "VmfgeVF",
        form: Form {
            funct: 0x1f,
            bits: 0x7c005057,
            ..VECTOR_VF_TO_MASK
        },
    },
    Row {
        name: "VandnVV",
        form: Form {
            funct: 0x01,
            bits: 0x4000057,
            ..VECTOR_VV
        },
    },
    Row {
        name: "VandnVX",
        form: Form {
            funct: 0x01,
            bits: 0x4004057,
            ..VECTOR_VX
        },
    },
    Row {
        name: "VrorVV",
        form: Form {
            funct: 0x14,
            bits: 0x50000057,
            ..VECTOR_VV
        },
    },
    Row {
        name: "VrorVX",
        form: Form {
            funct: 0x14,
            bits: 0x50004057,
            ..VECTOR_VX
        },
    },
    Row {
        name: "VrolVV",
        form: Form {
            funct: 0x15,
            bits: 0x54000057,
            ..VECTOR_VV
        },
    },
    Row {
        name: "VrolVX",
        form: Form {
            funct: 0x15,
            bits: 0x54004057,
            ..VECTOR_VX
        },
    },
    Row {
        name: "VmaccVV",
        form: Form {
            funct3: 2,
            funct: 0x2d,
            bits: 0xb4002057,
            ..VECTOR_VV
        },
    },
    Row {
        name: "VmaccVX",
        form: Form {
            funct3: 6,
            funct: 0x2d,
            bits: 0xb4006057,
            ..VECTOR_VX
        },
    },
    Row {
        name: "VnmsacVV",
        form: Form {
            funct3: 2,
            funct: 0x2f,
            bits: 0xbc002057,
            ..VECTOR_VV
        },
    },
    Row {
        name: "VnmsacVX",
        form: Form {
            funct3: 6,
            funct: 0x2f,
            bits: 0xbc006057,
            ..VECTOR_VX
        },
    },
    Row {
        name: "VfmaccVV",
        form: Form {
            funct3: 1,
            funct: 0x2c,
            bits: 0xb0001057,
            ..VECTOR_VV
        },
    },
    Row {
        name: "VfmaccVF",
        form: Form {
            funct: 0x2c,
            bits: 0xb0005057,
            ..VECTOR_VF
        },
    },
    Row {
        name: "VfnmaccVV",
        form: Form {
            funct3: 1,
            funct: 0x2d,
            bits: 0xb4001057,
            ..VECTOR_VV
        },
    },
    Row {
        name: "VfnmaccVF",
        form: Form {
            funct: 0x2d,
            bits: 0xb4005057,
            ..VECTOR_VF
        },
    },
    Row {
        name: "VfmsacVV",
        form: Form {
            funct3: 1,
            funct: 0x2e,
            bits: 0xb8001057,
            ..VECTOR_VV
        },
    },
    Row {
        name: "VfmsacVF",
        form: Form {
            funct: 0x2e,
            bits: 0xb8005057,
            ..VECTOR_VF
        },
    },
    Row {
        name: "VfnmsacVV",
        form: Form {
            funct3: 1,
            funct: 0x2f,
            bits: 0xbc001057,
            ..VECTOR_VV
        },
    },
    Row {
        name: "VfnmsacVF",
        form: Form {
            funct: 0x2f,
            bits: 0xbc005057,
            ..VECTOR_VF
        },
    },
    Row {
        name: "Vslide1upVX",
        form: Form {
            funct3: 6,
            funct: 0x0e,
            bits: 0x38006057,
            ..VECTOR_VX_APART
        },
    },
    Row {
        name: "VaddVI",
        form: VECTOR_VI,
    },
    Row {
        name: "VrsubVI",
        form: Form {
            funct: 0x03,
            bits: 0xc003057,
            ..VECTOR_VI
        },
    },
    Row {
        name: "VsllVI",
        form: VECTOR_VU,
    },
    Row {
        name: "VsrlVI",
        form: Form {
            funct: 0x28,
            bits: 0xa0003057,
            ..VECTOR_VU
        },
    },
    Row {
        name: "VsraVI",
        form: Form {
            funct: 0x29,
            bits: 0xa4003057,
            ..VECTOR_VU
        },
    },
    Row {
        name: "VandVI",
        form: Form {
            funct: 0x09,
            bits: 0x24003057,
            ..VECTOR_VI
        },
    },
    Row {
        name: "VorVI",
        form: Form {
            funct: 0x0a,
            bits: 0x28003057,
            ..VECTOR_VI
        },
    },
    Row {
        name: "VxorVI",
        form: Form {
            funct: 0x0b,
            bits: 0x2c003057,
            ..VECTOR_VI
        },
    },
    Row {
        name: "VslidedownVI",
        form: Form {
            funct: 0x0f,
            bits: 0x3c003057,
            ..VECTOR_VU
        },
    },
    Row {
        name: "VssrlVI",
        form: Form {
            funct: 0x2a,
            bits: 0xa8003057,
            ..VECTOR_VU
        },
    },
    Row {
        name: "VmergeVIM",
        form: VECTOR_VI_MERGE,
    },
    Row {
        name: "VsadduVI",
        form: Form {
            funct: 0x20,
            bits: 0x80003057,
            ..VECTOR_VI
        },
    },
    Row {
        name: "VsaddVI",
        form: Form {
            funct: 0x21,
            bits: 0x84003057,
            ..VECTOR_VI
        },
    },
    Row {
        name: "VrgatherVI",
        form: VECTOR_VU_APART,
    },
    Row {
        name: "VmvrV",
        form: VECTOR_MOVE,
    },
    Row {
        name: "VnclipWI",
        form: Form {
            funct: 0x2f,
            bits: 0xbc003057,
            ..VECTOR_VU
        },
    },
    Row {
        name: "VnclipuWI",
        form: Form {
            funct: 0x2e,
            bits: 0xb8003057,
            ..VECTOR_VU
        },
    },
    Row {
        name: "VmseqVI",
        form: VECTOR_VI_TO_MASK,
    },
    Row {
        name: "VmsneVI",
        form: Form {
            funct: 0x19,
            bits: 0x64003057,
            ..VECTOR_VI_TO_MASK
        },
    },
    Row {
        name: "VmsleuVI",
        form: Form {
            funct: 0x1c,
            bits: 0x70003057,
            ..VECTOR_VI_TO_MASK
        },
    },
    Row {
        name: "VmsleVI",
        form: Form {
            funct: 0x1d,
            bits: 0x74003057,
            ..VECTOR_VI_TO_MASK
        },
    },
    Row {
        name: "VmsgtuVI",
        form: Form {
            funct: 0x1e,
            bits: 0x78003057,
            ..VECTOR_VI_TO_MASK
        },
    },
    Row {
        name: "VmsgtVI",
        form: Form {
            funct: 0x1f,
            bits: 0x7c003057,
            ..VECTOR_VI_TO_MASK
        },
    },
    Row {
        name: "VrorVI",
        form: Form {
            funct: 0x14,
            bits: 0x50003057,
            ..VECTOR_VU
        },
    },
    Row {
        name: "VslideupVI",
        form: Form {
            funct: 0x0e,
            bits: 0x38003057,
            ..VECTOR_VU_APART
        },
    },
    Row {
        name: "vle8",
        form: VECTOR_LOAD,
    },
    Row {
        name: "vle16",
        form: Form {
            funct3: 5,
            bits: 0x5007,
            ..VECTOR_LOAD
        },
    },
    Row {
        name: "vle32",
        form: Form {
            funct3: 6,
            bits: 0x6007,
            ..VECTOR_LOAD
        },
    },
    Row {
        name: "vle64",
        form: Form {
            funct3: 7,
            bits: 0x7007,
            ..VECTOR_LOAD
        },
    },
    Row {
        name: "vse8",
        form: VECTOR_STORE,
    },
    Row {
        name: "vse16",
        form: Form {
            funct3: 5,
            bits: 0x5027,
            ..VECTOR_STORE
        },
    },
    Row {
        name: "vse32",
        form: Form {
            funct3: 6,
            bits: 0x6027,
            ..VECTOR_STORE
        },
    },
    Row {
        name: "vse64",
        form: Form {
            funct3: 7,
            bits: 0x7027,
            ..VECTOR_STORE
        },
    },
    Row {
        name: "CMv",
        form: C_MOVE,
    },
    Row {
        name: "CJr",
        form: C_JUMP_REGISTER,
    },
    Row {
        name: "CAdd",
        form: Form {
            funct: 0x09,
            bits: 0x9002,
            ..C_MOVE
        },
    },
    Row {
        name: "CJalr",
        form: Form {
            funct: 0x09,
            bits: 0x9002,
            ..C_JUMP_REGISTER
        },
    },
    Row {
        name: "CEbreak",
        form: CEBREAK,
    },
    Row {
        name: "CAnd",
        form: C_ARITHMETIC,
    },
    Row {
        name: "COr",
        form: Form {
            funct3: 2,
            bits: 0x8c41,
            ..C_ARITHMETIC
        },
    },
    Row {
        name: "CXor",
        form: Form {
            funct3: 1,
            bits: 0x8c21,
            ..C_ARITHMETIC
        },
    },
    Row {
        name: "CSub",
        form: Form {
            funct3: 0,
            bits: 0x8c01,
            ..C_ARITHMETIC
        },
    },
    Row {
        name: "CAddw",
        form: Form {
            funct3: 1,
            funct: 0x27,
            bits: 0x9c21,
            ..C_ARITHMETIC
        },
    },
    Row {
        name: "CSubw",
        form: Form {
            funct3: 0,
            funct: 0x27,
            bits: 0x9c01,
            ..C_ARITHMETIC
        },
    },
    Row {
        name: "CMul",
        form: Form {
            funct3: 2,
            funct: 0x27,
            bits: 0x9c41,
            ..C_ARITHMETIC
        },
    },
    Row {
        name: "CJ",
        form: CJ,
    },
    Row {
        name: "CAddi",
        form: CADDI,
    },
    Row {
        name: "CSlli",
        form: CSLLI,
    },
    Row {
        name: "CAddiw",
        form: CADDIW,
    },
    Row {
        name: "CFldsp",
        form: CFLDSP,
    },
    Row {
        name: "CLi",
        form: Form {
            funct3: 2,
            bits: 0x4001,
            ..CADDIW
        },
    },
    Row {
        name: "CLwsp",
        form: CLWSP,
    },
    Row {
        name: "CAddi16sp",
        form: CADDI16SP,
    },
    Row {
        name: "CLui",
        form: CLUI,
    },
    Row {
        name: "CLdsp",
        form: CLDSP,
    },
    Row {
        name: "CAddi4spn",
        form: CADDI4SPN,
    },
    Row {
        name: "CSrli",
        form: CSRLI,
    },
    Row {
        name: "CSrai",
        form: Form {
            funct: 0x01,
            bits: 0x8401,
            ..CSRLI
        },
    },
    Row {
        name: "CAndi",
        form: CANDI,
    },
    Row {
        name: "CFsdsp",
        form: CFSDSP,
    },
    Row {
        name: "CSwsp",
        form: CSWSP,
    },
    Row {
        name: "CSdsp",
        form: CSDSP,
    },
    Row {
        name: "CFsd",
        form: CFSD,
    },
    Row {
        name: "CSw",
        form: CSW,
    },
    Row {
        name: "CSd",
        form: CSD,
    },
    Row {
        name: "CFld",
        form: CFLD,
    },
    Row {
        name: "CLw",
        form: CLW,
    },
    Row {
        name: "CLd",
        form: CLD,
    },
];

// The rows are the manuals' operations.
#[tactic(auto, unfolding(crate::specs::Manual::operations))]
pub fn table() -> &'static [Row]
    ensures { map entry_of result.now ≡ operations }
{
    &TABLE
}

// The form of an operation.
#[tactic(auto, using(crate::proofs::Rows::rows_length, crate::proofs::Rows::form_in))]
pub fn form_of(op: Operation) -> Form
    ensures { result ≡ form_at op.place }
{
    let rows = table();
    rows[op.place].form
}
