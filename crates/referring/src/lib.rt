// What the numbers in the rows of a table's arrays refer to: refusal 24 of the reader.
// Promises: each judgment is its definition, for all arrays; over the arrays of a table together they are the reader's test of references.
// Builds on the references of file, on the layout of tables and on cells.
#![tactic(auto)]

ghost use Rattle.std.specs.Prelude.{◌≡◌, [], ◌∷◌};
ghost use Rattle.file.specs.References.{is_source, is_actuator, function_takes};
ghost use Rattle.referring.specs.Rows.{gives_in, serves_one_in, serves_in, good_release_in, good_update_in, good_driver_in, good_drivers_in};
ghost use Rattle.referring.specs.Rows.{readable_in, operand_type_in, good_one_in, good_two_in, good_guard_in, good_guards_in};
ghost use Rattle.referring.specs.Rows.{good_begin_in, good_begins_in, starts_in, good_modes_in, good_instruction_in, good_line_in, good_code_in};

// ---- ports

fn is_source(roles: &[u32], port: u32) -> bool
    ensures { result ≡ is_source roles.now port }
{
    let role = cells::at32(roles, cells::wide32(port));
    if role == 1 {
        return true;
    }
    role == 4
}

fn is_actuator(roles: &[u32], port: u32) -> bool
    ensures { result ≡ is_actuator roles.now port }
{
    cells::at32(roles, cells::wide32(port)) == 2
}

// Whether a port can be read and is of a type.
fn gives<'a>(roles: &'a [u32], types: &'a [u32], port: u32, wanted: u32) -> bool
    ensures { result ≡ gives_in roles.now types.now port wanted }
{
    if is_source(roles, port) {
        return cells::at32(types, cells::wide32(port)) == wanted;
    }
    false
}

// ---- drivers

// Whether source number `k` of a driver serves the input at port `first + k`.
fn serves_one<'a>(
    roles: &'a [u32],
    types: &'a [u32],
    rows: &'a [u32],
    driver: u32,
    first: u32,
    k: u32,
) -> bool
    ensures { result ≡ serves_one_in roles.now types.now rows.now driver first k }
{
    let at = cells::wide32(k);
    let port = cells::at32(rows, cells::wide32(driver) * 12 + 3 + at);
    let wanted = cells::at32(types, cells::wide32(first) + at);
    gives(roles, types, port, wanted)
}

// Whether the sources of a driver serve the inputs from port `first` on, as many as are asked for.
fn serves<'a>(
    roles: &'a [u32],
    types: &'a [u32],
    rows: &'a [u32],
    driver: u32,
    first: u32,
    many: u32,
) -> bool
    ensures { result ≡ serves_in roles.now types.now rows.now driver first many }
{
    let mut k = 0u32;
    while k < many {
        if !serves_one(roles, types, rows, driver, first, k) {
            return false;
        }
        k += 1;
    }
    true
}

fn good_release<'a>(
    roles: &'a [u32],
    types: &'a [u32],
    tasks: &'a [u32],
    rows: &'a [u32],
    driver: u32,
) -> bool
    ensures { result ≡ good_release_in roles.now types.now tasks.now rows.now driver }
{
    let at = cells::wide32(driver) * 12;
    let task = cells::wide32(cells::at32(rows, at + 1)) * 4;
    let many = cells::at32(rows, at + 2);
    if many == cells::at32(tasks, task + 1) {
        return serves(roles, types, rows, driver, cells::at32(tasks, task), many);
    }
    false
}

fn good_update<'a>(roles: &'a [u32], types: &'a [u32], source: u32, target: u32) -> bool
    ensures { result ≡ good_update_in roles.now types.now source target }
{
    if is_actuator(roles, target) {
        return gives(
            roles,
            types,
            source,
            cells::at32(types, cells::wide32(target)),
        );
    }
    false
}

fn good_driver<'a>(
    roles: &'a [u32],
    types: &'a [u32],
    tasks: &'a [u32],
    rows: &'a [u32],
    count: u32,
    driver: u32,
) -> bool
    ensures { result ≡ good_driver_in roles.now types.now tasks.now rows.now count driver }
{
    let at = cells::wide32(driver) * 12;
    let tag = cells::at32(rows, at);
    let target = cells::at32(rows, at + 1);
    if tag == 3 {
        return good_update(roles, types, cells::at32(rows, at + 3), target);
    }
    if target < count {
        if tag == 4 {
            return good_release(roles, types, tasks, rows, driver);
        }
        return true;
    }
    false
}

pub fn good_drivers<'a>(
    roles: &'a [u32],
    types: &'a [u32],
    tasks: &'a [u32],
    rows: &'a [u32],
    count: u32,
    many: u32,
) -> bool
    ensures { result ≡ good_drivers_in roles.now types.now tasks.now rows.now count many }
{
    let mut driver = 0u32;
    while driver < many {
        if !good_driver(roles, types, tasks, rows, count, driver) {
            return false;
        }
        driver += 1;
    }
    true
}

// ---- guards

fn readable(roles: &[u32], place: u32, word: u32) -> bool
    ensures { result ≡ readable_in roles.now place word }
{
    if place == 0 {
        return is_source(roles, word);
    }
    true
}

fn operand_type(types: &[u32], place: u32, word: u32) -> u32
    ensures { result ≡ operand_type_in types.now place word }
{
    if place == 0 {
        return cells::at32(types, cells::wide32(word));
    }
    place - 1
}

fn takes_one(function: u32, kind: u32) -> bool
    ensures { result ≡ function_takes function (kind ∷ []) }
{
    if function < 2 {
        return kind == 1;
    }
    false
}

fn takes_two(function: u32, first: u32, second: u32) -> bool
    ensures { result ≡ function_takes function (first ∷ second ∷ []) }
{
    if function == 2 {
        if first == 0 {
            return second == 0;
        }
        return false;
    }
    if function == 3 {
        return first == second;
    }
    false
}

fn good_one<'a>(roles: &'a [u32], types: &'a [u32], function: u32, place: u32, word: u32) -> bool
    ensures { result ≡ good_one_in roles.now types.now function place word }
{
    if readable(roles, place, word) {
        return takes_one(function, operand_type(types, place, word));
    }
    false
}

fn good_two<'a>(
    roles: &'a [u32],
    types: &'a [u32],
    function: u32,
    place: u32,
    word: u32,
    second: u32,
    other: u32,
) -> bool
    ensures { result ≡ good_two_in roles.now types.now function place word second other }
{
    if readable(roles, place, word) {
        if readable(roles, second, other) {
            return takes_two(
                function,
                operand_type(types, place, word),
                operand_type(types, second, other),
            );
        }
    }
    false
}

fn good_guard<'a>(roles: &'a [u32], types: &'a [u32], rows: &'a [u32], guard: u32) -> bool
    ensures { result ≡ good_guard_in roles.now types.now rows.now guard }
{
    let at = cells::wide32(guard) * 6;
    let function = cells::at32(rows, at);
    let many = cells::at32(rows, at + 1);
    let place = cells::at32(rows, at + 2);
    let word = cells::at32(rows, at + 3);
    if many == 1 {
        return good_one(roles, types, function, place, word);
    }
    if many == 2 {
        let second = cells::at32(rows, at + 4);
        let other = cells::at32(rows, at + 5);
        return good_two(roles, types, function, place, word, second, other);
    }
    false
}

pub fn good_guards<'a>(roles: &'a [u32], types: &'a [u32], rows: &'a [u32], many: u32) -> bool
    ensures { result ≡ good_guards_in roles.now types.now rows.now many }
{
    let mut guard = 0u32;
    while guard < many {
        if !good_guard(roles, types, rows, guard) {
            return false;
        }
        guard += 1;
    }
    true
}

// ---- modes

fn good_begin(rows: &[u32], instructions: u32, mode: u32) -> bool
    ensures { result ≡ good_begin_in rows.now instructions mode }
{
    cells::at32(rows, cells::wide32(mode) * 3 + 2) < instructions
}

fn good_begins(rows: &[u32], instructions: u32, many: u32) -> bool
    ensures { result ≡ good_begins_in rows.now instructions many }
{
    let mut mode = 0u32;
    while mode < many {
        if !good_begin(rows, instructions, mode) {
            return false;
        }
        mode += 1;
    }
    true
}

// How many modes are marked as start mode.
fn starts(rows: &[u32], many: u32) -> usize
    ensures { result ≡ starts_in rows.now many }
{
    let mut sum = 0usize;
    let mut mode = 0u32;
    while mode < many {
        sum += cells::wide32(cells::at32(rows, cells::wide32(mode) * 3));
        mode += 1;
    }
    sum
}

// Whether every mode begins in the code, and exactly one is the start mode.
pub fn good_modes(rows: &[u32], many: u32, instructions: u32) -> bool
    ensures { result ≡ good_modes_in rows.now many instructions }
{
    if good_begins(rows, instructions, many) {
        return starts(rows, many) == 1;
    }
    false
}

// ---- code

fn good_instruction(
    opcode: u32,
    first: u32,
    second: u32,
    instructions: u32,
    drivers: u32,
    tasks: u32,
    guards: u32,
    modes: u32,
) -> bool
    ensures { result ≡ good_instruction_in opcode first second instructions drivers tasks guards modes }
{
    match opcode {
        1 => first < instructions,
        2 => first < drivers,
        3 => first < tasks,
        4 => if first < guards {
            second < instructions
        } else {
            false
        },
        5 => first < instructions,
        7 => first < modes,
        _ => true,
    }
}

fn good_line(
    rows: &[u32],
    instructions: u32,
    drivers: u32,
    tasks: u32,
    guards: u32,
    modes: u32,
    line: u32,
) -> bool
    ensures { result ≡ good_line_in rows.now instructions drivers tasks guards modes line }
{
    let at = cells::wide32(line) * 3;
    let opcode = cells::at32(rows, at);
    let first = cells::at32(rows, at + 1);
    let second = cells::at32(rows, at + 2);
    good_instruction(
        opcode,
        first,
        second,
        instructions,
        drivers,
        tasks,
        guards,
        modes,
    )
}

pub fn good_code(
    rows: &[u32],
    instructions: u32,
    drivers: u32,
    tasks: u32,
    guards: u32,
    modes: u32,
) -> bool
    ensures { result ≡ good_code_in rows.now instructions drivers tasks guards modes }
{
    let mut line = 0u32;
    while line < instructions {
        if !good_line(rows, instructions, drivers, tasks, guards, modes, line) {
            return false;
        }
        line += 1;
    }
    true
}
