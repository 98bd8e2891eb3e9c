// The operations of an image's records: document 01's 79, by group.

#![tactic(auto)]

ghost use Rattle.std.specs.Prelude.{◌≡◌, length, ltb};
ghost use Rattle.operations.specs.Forms.{operation_number};
ghost use Rattle.operations.specs.Operations.{operations, operation_of, access_of, compares};

use integer::Integer;

// The moves and the arithmetic of address registers.
#[derive(Clone, Copy)]
pub enum Move {
    MovA,
    MovD,
    MovAa,
    AddA,
    SubA,
}

// The loads.
#[derive(Clone, Copy)]
pub enum Load {
    LdB,
    LdBu,
    LdH,
    LdHu,
    LdW,
    LdA,
}

// The stores.
#[derive(Clone, Copy)]
pub enum Store {
    StB,
    StH,
    StW,
    StA,
}

// The jumps.
#[derive(Clone, Copy)]
pub enum Jump {
    J,
    Jl,
    Ji,
    Jeq,
    Jne,
    Jlt,
    JltU,
    Jge,
    JgeU,
    Loop,
}

// The operations on contexts.
#[derive(Clone, Copy)]
pub enum Context {
    Call,
    Calli,
    Ret,
    Rfe,
    Svlcx,
    Rslcx,
    Bisr,
    Syscall,
}

// The system operations.
#[derive(Clone, Copy)]
pub enum System {
    Enable,
    Disable,
    Mfcr,
    Mtcr,
    Trapv,
    Trapsv,
    Rstv,
}

#[derive(Clone, Copy)]
pub enum Operation {
    Nop,
    Integer(Integer),
    Move(Move),
    Load(Load),
    Store(Store),
    Jump(Jump),
    Context(Context),
    System(System),
}

// The operation's number, of an operation byte.
pub fn operation_number(byte: u8) -> u8
    ensures { result ≡ operation_number byte }
{
    byte % 128
}

// The operation of an operation byte, in both forms. The bytes themselves are matched, and the last operation stands for any other byte: the compiled run then decodes with one comparison.
pub fn decode(byte: u8) -> Operation
    ensures { result ≡ operation_of (operation_number byte) }
{
    match byte {
        0 | 128 => Operation::Nop,
        1 | 129 => Operation::Integer(Integer::Add),
        2 | 130 => Operation::Integer(Integer::Sub),
        3 | 131 => Operation::Integer(Integer::Rsub),
        4 | 132 => Operation::Integer(Integer::Addx),
        5 | 133 => Operation::Integer(Integer::Addc),
        6 | 134 => Operation::Integer(Integer::Subx),
        7 | 135 => Operation::Integer(Integer::Subc),
        8 | 136 => Operation::Integer(Integer::Adds),
        9 | 137 => Operation::Integer(Integer::AddsU),
        10 | 138 => Operation::Integer(Integer::Subs),
        11 | 139 => Operation::Integer(Integer::SubsU),
        12 | 140 => Operation::Integer(Integer::Mul),
        13 | 141 => Operation::Integer(Integer::And),
        14 | 142 => Operation::Integer(Integer::Or),
        15 | 143 => Operation::Integer(Integer::Xor),
        16 | 144 => Operation::Integer(Integer::Nand),
        17 | 145 => Operation::Integer(Integer::Nor),
        18 | 146 => Operation::Integer(Integer::Xnor),
        19 | 147 => Operation::Integer(Integer::Andn),
        20 | 148 => Operation::Integer(Integer::Orn),
        21 | 149 => Operation::Integer(Integer::Sh),
        22 | 150 => Operation::Integer(Integer::Sha),
        23 | 151 => Operation::Integer(Integer::Min),
        24 | 152 => Operation::Integer(Integer::MinU),
        25 | 153 => Operation::Integer(Integer::Max),
        26 | 154 => Operation::Integer(Integer::MaxU),
        27 | 155 => Operation::Integer(Integer::Abs),
        28 | 156 => Operation::Integer(Integer::Absdif),
        29 | 157 => Operation::Integer(Integer::Eq),
        30 | 158 => Operation::Integer(Integer::Ne),
        31 | 159 => Operation::Integer(Integer::Lt),
        32 | 160 => Operation::Integer(Integer::LtU),
        33 | 161 => Operation::Integer(Integer::Ge),
        34 | 162 => Operation::Integer(Integer::GeU),
        35 | 163 => Operation::Integer(Integer::Clz),
        36 | 164 => Operation::Integer(Integer::Clo),
        37 | 165 => Operation::Integer(Integer::Cls),
        38 | 166 => Operation::Integer(Integer::Mov),
        39 | 167 => Operation::Move(Move::MovA),
        40 | 168 => Operation::Move(Move::MovD),
        41 | 169 => Operation::Move(Move::MovAa),
        42 | 170 => Operation::Move(Move::AddA),
        43 | 171 => Operation::Move(Move::SubA),
        44 | 172 => Operation::Load(Load::LdB),
        45 | 173 => Operation::Load(Load::LdBu),
        46 | 174 => Operation::Load(Load::LdH),
        47 | 175 => Operation::Load(Load::LdHu),
        48 | 176 => Operation::Load(Load::LdW),
        49 | 177 => Operation::Load(Load::LdA),
        50 | 178 => Operation::Store(Store::StB),
        51 | 179 => Operation::Store(Store::StH),
        52 | 180 => Operation::Store(Store::StW),
        53 | 181 => Operation::Store(Store::StA),
        54 | 182 => Operation::Jump(Jump::J),
        55 | 183 => Operation::Jump(Jump::Jl),
        56 | 184 => Operation::Jump(Jump::Ji),
        57 | 185 => Operation::Jump(Jump::Jeq),
        58 | 186 => Operation::Jump(Jump::Jne),
        59 | 187 => Operation::Jump(Jump::Jlt),
        60 | 188 => Operation::Jump(Jump::JltU),
        61 | 189 => Operation::Jump(Jump::Jge),
        62 | 190 => Operation::Jump(Jump::JgeU),
        63 | 191 => Operation::Jump(Jump::Loop),
        64 | 192 => Operation::Context(Context::Call),
        65 | 193 => Operation::Context(Context::Calli),
        66 | 194 => Operation::Context(Context::Ret),
        67 | 195 => Operation::Context(Context::Rfe),
        68 | 196 => Operation::Context(Context::Svlcx),
        69 | 197 => Operation::Context(Context::Rslcx),
        70 | 198 => Operation::Context(Context::Bisr),
        71 | 199 => Operation::Context(Context::Syscall),
        72 | 200 => Operation::System(System::Enable),
        73 | 201 => Operation::System(System::Disable),
        74 | 202 => Operation::System(System::Mfcr),
        75 | 203 => Operation::System(System::Mtcr),
        76 | 204 => Operation::System(System::Trapv),
        77 | 205 => Operation::System(System::Trapsv),
        _ => Operation::System(System::Rstv),
    }
}

// What an operation that accesses data memory does with it.
#[derive(Clone, Copy)]
pub enum Access {
    Read,
    Write,
}

// Of the operation with a number, if it accesses data.
pub fn access_of(number: u8) -> Option<Access>
    ensures { result ≡ access_of (operation_of number) }
{
    if number < 44 {
        return None;
    }
    if number < 50 {
        return Some(Access::Read);
    }
    if number < 54 {
        return Some(Access::Write);
    }
    None
}

// Whether a number is that of an operation.
pub fn is_operation(number: u32) -> bool
    ensures { result ≡ ltb number (length operations) }
{
    number < 79
}

// Whether the operation with a number compares two data registers: it takes no immediate.
pub fn is_compare(number: u32) -> bool
    ensures { result ≡ compares (operation_of number) }
{
    (57 <= number) & (number < 63)
}
