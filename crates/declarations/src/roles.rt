// What each port is.
ghost use Rattle.std.specs.Prelude.{◌≡◌, replicate};
ghost use Rattle.layout.specs.Filling.{stored};

// As many cells as are asked for, from `from` on, hold the role.
pub fn mark(roles: &mut [u32], from: usize, many: u32, role: u32)
    ensures { roles.new ≡ stored roles.old from (replicate many role) }
{
    if from < roles.len() {
        let end = roles.len().min(from + many as usize);
        roles[from..end].fill(role);
    }
}
