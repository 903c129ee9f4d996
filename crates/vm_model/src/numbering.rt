// What is numbered from 1, in the order of making.
ghost use Rattle.std.specs.Prelude.{◌≡◌, option_map};
ghost use Rattle.vm_model.specs.Machine.{numbered};

/// The one with this number, where it is alive: numbers count from 1, and there is none of number
/// 0.
pub fn numbered<T>(list: &[Option<T>], number: u32) -> Option<&T>
    ensures { option_map (λ one. one.now) result ≡ numbered list.now number }
{
    if number == 0 {
        return None;
    }
    list.get(number as usize - 1)?.as_ref()
}
