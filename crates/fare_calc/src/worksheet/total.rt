//! The lines of a total.

ghost use Rattle.std.specs.Prelude.{◌≡◌, ◌++◌, ◌<◌, ◌≤◌, Some, OnOk, decimal};
ghost use Rattle.fare_codes.specs.Numbers.{decimal_text};
ghost use Rattle.fare_tariff.specs.Record.{IsCurrency};
ghost use Rattle.fare_rules.specs.UnitPrice.{price};
ghost use Rattle.fare_calc.specs.PartSheets.{home_currency};
ghost use Rattle.fare_calc.specs.Worksheet.{currency_lines, local_text, total_lines};

use crate::home::local_amount;
use crate::sheets::Sheets;
use fare_codes::{MOST_DECIMALS, rate_text};
use fare_ports::NoMemory;
use fare_rules::PRICE_LIMIT;
use fare_tariff::CurRec;
use fare_text::{push_code, push_decimal, push_hundredths, push_whole};

/// Appends the lines of the total of a lawful construction.
pub(crate) fn push_total(text: &mut Vec<u8>, sheets: &Sheets<'_>) -> Result<(), NoMemory>
    ensures { OnOk result (text.new.items ≡ text.old.items
        ++ total_lines (price sheets.now.edition sheets.now.trip sheets.now.parts)
        (home_currency sheets.now.edition sheets.now.trip)) }
{
    push_price(text, sheets.price(), sheets.currency())
}

/// Appends the lines of a price in hundredths of a NUC, with what it is in a currency.
fn push_price(text: &mut Vec<u8>, price: u64, currency: &CurRec) -> Result<(), NoMemory>
    requires price { price < PRICE_LIMIT }
    requires currency { IsCurrency currency.now.roe currency.now.decimals currency.now.unit }
    ensures { OnOk result (text.new.items ≡ text.old.items ++ total_lines price (Some currency.now)) }
{
    text.extend_from_slice(b"TOTAL NUC ")?;
    push_hundredths(text, price)?;
    text.push(b'\n')?;
    push_currency(text, price, currency)
}

/// Appends the rate of exchange of a currency, and a price converted to it.
#[tactic(auto, unfolding(crate::specs::Worksheet::currency_lines))]
fn push_currency(text: &mut Vec<u8>, price: u64, currency: &CurRec) -> Result<(), NoMemory>
    requires price { price < PRICE_LIMIT }
    requires currency { IsCurrency currency.now.roe currency.now.decimals currency.now.unit }
    ensures { OnOk result (text.new.items ≡ text.old.items ++ currency_lines price currency.now) }
{
    let local = local_amount(price, currency);
    text.extend_from_slice(b"ROE ")?;
    push_code(text, &rate_text(currency.roe))?;
    text.extend_from_slice(b"\nLOCAL ")?;
    push_code(text, &currency.currency.text())?;
    text.push(b' ')?;
    push_local(text, currency.decimals, local)?;
    Ok(text.push(b'\n')?)
}

/// Appends a local amount with its decimals; without decimals it has no point.
fn push_local(text: &mut Vec<u8>, decimals: u8, amount: u128) -> Result<(), NoMemory>
    requires { decimals ≤ MOST_DECIMALS }
    ensures { OnOk result (text.new.items ≡ text.old.items ++ local_text decimals amount) }
{
    match decimals {
        0 => push_whole(text, amount),
        places => push_decimal(text, amount, places),
    }
}
