//! Where labels stand.
ghost use Rattle.std.specs.Prelude.{◌≡◌, ◌<◌, ◌^◌};
ghost use Rattle.ec_asm.specs.Items.{code_words};
ghost use Rattle.ec_locate.specs.Labels.{label_word};

use ec_asm::{AsmItem, item_words};

/// The word where a label stands first, where the items begin at word 0. It is that behind the last item where the label
/// stands nowhere.
pub fn label_word(items: &[AsmItem], label: u64) -> u16
    requires { code_words items.now < 2 ^ 16 }
    ensures { result ≡ label_word items.now label }
{
    let mut word = 0u16;
    for item in items {
        match item {
            AsmItem::Label(placed) => {
                if *placed == label {
                    return word;
                }
            }
            _ => word += u16::from(item_words(*item)),
        }
    }
    word
}
