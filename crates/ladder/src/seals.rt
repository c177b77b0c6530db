ghost use Rattle.std.specs.Prelude.{◌≡◌, ◌≤◌, length, take, drop};
ghost use Rattle.ladder.specs.Mics.{side_byte, key_for, mic_by, ladder_sealing, ladder_lawful};
ghost use Rattle.ladder.specs.Rungs.{is_up};

use crate::Ladder;
use crate::bytes::put_headed;
use mechanism::{Sealer, Side, may_seal};
use sspi::{ErrorKind, Fault, Layer};

fn side_byte(side: Side) -> u8
    ensures { result ≡ side_byte side }
{
    match side {
        Side::Client => b'C',
        Side::Server => b'S',
    }
}

impl Ladder {
    pub(crate) fn is_up(&self) -> bool
        ensures { result ≡ is_up self.now }
    {
        self.height == self.legs
    }

    // The key in use.
    #[tactic(auto, using(crate::proofs::Paddings::padded_whole, crate::proofs::Paddings::padded_if))]
    fn key(&self) -> [u8; 8]
        ensures { result ≡ key_for self.now self.now.side }
    {
        match self.side {
            Side::Client => self.client_key,
            Side::Server => self.allowed_key.unwrap_or([0; 8]),
        }
    }

    // Writes the MIC that the side makes over the data, and gives its length.
    #[tactic(auto, using(crate::proofs::Puts::joined_back))]
    fn put_mic(&self, maker: Side, data: &[u8], mic: &mut [u8; 160]) -> usize
        requires { length «data».now ≤ 128 }
        ensures count { result ≤ 160 }
        ensures front { take result mic.new ≡ mic_by self.now maker «data».now }
        ensures back { drop result mic.new ≡ drop result mic.old }
    {
        let (key, rest) = mic.split_at_mut(8);
        key.copy_from_slice(&self.key());
        8 + put_headed(rest, side_byte(maker), data)
    }
}

impl Sealer for Ladder {
    ghost sealing = { ladder_sealing };

    ghost lawful = { ladder_lawful };

    fn make(&mut self, data: &[u8], mic: &mut [u8; 160]) -> Result<usize, Fault> {
        may_seal(data, self.is_up())?;
        Ok(self.put_mic(self.side, data, mic))
    }

    fn check(&mut self, data: &[u8], mic: &[u8]) -> Result<(), Fault> {
        may_seal(data, self.is_up())?;
        let mut expected = [0; 160];
        let len = self.put_mic(self.side.other(), data, &mut expected);
        if &expected[..len] != mic {
            return Err(Layer::Mechanism.fault(ErrorKind::MessageAltered));
        }
        Ok(())
    }
}
